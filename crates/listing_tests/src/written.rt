//! Base maps that are written as listings.

use area_listing::{read_listing, read_rules, write_listing};
use ring_sides::to_base;
use std::alloc::Global;
use std::test::Fail;
use tgap_model::{Base, Memory, Text};
use topo_read::read_topology;

/// Three squares in a row, of two classes.
const THREE_SQUARES: &str =
    "tgap 1\ntransform 1 1 0 0\nratio 0\nclasses 2\nclass 0 3 1 1\nclass 1 1 1 5\nfaces 3\nface 1 0\nface 2 1\nface 3 1\narcs 6\narc 1 0 4 10 10 0 10 0 0 10 0\narc 2 0 2 10 0 20 0\narc 3 0 4 20 0 30 0 30 10 20 10\narc 2 0 2 20 10 10 10\narc 1 2 2 10 0 10 10\narc 2 3 2 20 0 20 10\nend\n";

/// A square with a square hole, which is a face.
const HOLE_WITH_FACE: &str =
    "tgap 1\ntransform 1 1 0 0\nratio 0\nclasses 1\nclass 0 1 1\nfaces 2\nface 1 0\nface 2 0\narcs 2\narc 1 0 5 0 0 30 0 30 30 0 30 0 0\narc 2 1 5 10 10 20 10 20 20 10 20 10 10\nend\n";

/// No face at all, with the greatest numbers that the head of a listing may have.
const GREATEST_HEAD: &str =
    "tgap 1\ntransform -1 2147483647 -2147483648 0\nratio 65535\nclasses 1\nclass 0 65535 1000\nfaces 0\narcs 0\nend\n";

/// The listing of what a listing is read as.
fn rewritten(alloc: Global, listing: &[u8]) -> Result<Text, Fail> {
    let Ok(base) = read_listing(alloc, listing) else {
        return Err("the listing was not read".into());
    };
    Ok(write_listing(alloc, &base)?)
}

/// Whether this listing is written again, in version 2, and so is that one.
fn is_written_again(alloc: Global, listing: &str) -> Result<bool, Fail> {
    let written = rewritten(alloc, listing.as_bytes())?;
    let again = rewritten(alloc, written.as_slice())?;
    let rest = written.as_slice().strip_prefix(b"tgap 2".as_slice());
    Ok(
        again.as_slice() == written.as_slice()
            && rest == listing.as_bytes().strip_prefix(b"tgap 1".as_slice()),
    )
}

#[test]
fn listings_are_written_again(rt: HostRuntime) -> Result<(), Fail> {
    for map in [THREE_SQUARES, HOLE_WITH_FACE, GREATEST_HEAD] {
        assert!(rt; is_written_again(rt.alloc(), map)?, "{map}");
    }
    Ok(())
}

/// A triangle, one of whose corners stands there twice.
const TOPOLOGY: &str =
    "{\"type\":\"Topology\",\"transform\":{\"scale\":[2,-2],\"translate\":[5,0]},\"objects\":{\"one\":{\"type\":\"Polygon\",\"arcs\":[[0]]}},\"arcs\":[[[0,0],[10,0],[0,10],[0,0],[-10,-10]]]}";

const RULES: &str =
    "{\"property\":\"kind\",\"classes\":[[\"6\",1],[\"7\",2]],\"default\":0,\"compat\":[[1,2],[3,4]],\"ratio\":0}";

/// The base map that the topology and the rules make.
fn base_of(alloc: Global) -> Result<Base, Fail> {
    let Ok(named) = read_rules(alloc, RULES.as_bytes()) else {
        return Err("the rules were not read".into());
    };
    let Ok(raw) = read_topology(alloc, TOPOLOGY.as_bytes(), "one", "kind") else {
        return Err("the topology was not read".into());
    };
    to_base(alloc, &raw, &named).map_err(|_| Fail::from("the rings make no base map"))
}

/// Whether this is the listing of a base map.
fn is_listing_of(alloc: Global, base: &Base, listing: &str) -> Result<bool, Memory> {
    let written = write_listing(alloc, base)?;
    Ok(written.as_slice() == listing.as_bytes())
}

#[test]
fn a_topology_is_written_as_a_listing(rt: HostRuntime) -> Result<(), Fail> {
    let base = base_of(rt.alloc())?;
    let listing =
        "tgap 2\ntransform 2 -2 5 0\nratio 0\nclasses 2\nclass 0 1 1 2\nclass 1 2 3 4\nfaces 1\nface 1 0\narcs 1\narc 1 0 4 0 0 10 0 10 10 0 0\nend\n";
    assert!(rt; is_listing_of(rt.alloc(), &base, listing)?);
    Ok(())
}
