//! The files of all commands, and what each command answers of them.

use memory_runs::{TWO_SQUARES, files_of};
use plain_io::MemoryFiles;
use std::alloc::Global;
use tgap_model::{List, Memory};

pub const COARSE: &str =
    "slice 1\nfaces 1\nface 3 0\nedges 1\nedge 0 3 0 6 10 10 0 10 0 0 20 0 20 10 10 10\nend\n";

const FINE: &str =
    "slice 0\nfaces 2\nface 1 0\nface 2 0\nedges 3\nedge 0 1 0 4 10 10 0 10 0 0 10 0\nedge 1 2 0 4 10 0 20 0 20 10 10 10\nedge 2 1 2 2 10 0 10 10\nend\n";

const PACKET: &str =
    "packet 1 0\nstep 1 1 0 2 0 3 1 1\nmend 0 1 2\nput 3 10 0\npiece 0 3 1 0\npiece 1 6 2 0\nedge 2 1 2 2 10 0 10 10\nend\n";

/// The two squares as a topology, each of a kind of its own.
const TOPOLOGY: &str =
    "{\"type\":\"Topology\",\"objects\":{\"land\":{\"type\":\"GeometryCollection\",\"geometries\":[{\"type\":\"Polygon\",\"arcs\":[[0,2]],\"properties\":{\"kind\":\"field\"}},{\"type\":\"Polygon\",\"arcs\":[[1,-3]],\"properties\":{\"kind\":\"wood\"}}]}},\"arcs\":[[[10,10],[0,10],[0,0],[10,0]],[[10,0],[20,0],[20,10],[10,10]],[[10,0],[10,10]]]}";

const RULES: &str =
    "{\"property\":\"kind\",\"classes\":[[\"field\",1],[\"wood\",1]],\"default\":0,\"compat\":[[1,1],[1,1]],\"ratio\":16}";

/// The words of each command, and what it answers where all files are there. The line of forty rows was counted by an
/// independent program.
pub const ANSWERS: &[(&str, &str)] = &[
    (
        "borders map 0",
        "borders 0\nborder 0 1 0\nborder 1 2 0\nborder 2 1 2\nend\n",
    ),
    ("check map", "ok faces 2 arcs 3 points 10\n"),
    ("slice map 1", COARSE),
    (
        "slice topology 1 land rules",
        "slice 1\nfaces 1\nface 3 1\nedges 1\nedge 0 3 0 6 10 10 0 10 0 0 20 0 20 10 10 10\nend\n",
    ),
    ("packet map 1 0", PACKET),
    ("replay coarse packet", FINE),
    (
        "grid 40",
        "grid 40 faces 1600 arcs 3280 points 9840 steps 1599 removed 3546 edges 1 kept 6 replayed 3276 9836\n",
    ),
];

/// The files of all commands. The listed loads fail.
pub fn all_files(alloc: Global, failing: List<u64>) -> Result<MemoryFiles, Memory> {
    let named = [
        ("map", TWO_SQUARES.as_bytes()),
        ("topology", TOPOLOGY.as_bytes()),
        ("rules", RULES.as_bytes()),
        ("coarse", COARSE.as_bytes()),
        ("packet", PACKET.as_bytes()),
    ];
    files_of(alloc, &named, failing)
}
