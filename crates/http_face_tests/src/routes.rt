//! What a method and a target ask for.

use http_face::{Allow, Route, route, routes};
use std::alloc::Global;
use std::test::Fail;
use tgap_model::{Memory, Window};

fn asked(alloc: Global, method: &[u8], target: &[u8]) -> Result<Route, Memory> {
    let routes = routes(alloc)?;
    Ok(route(&routes, method, target))
}

#[test]
fn paths(rt: HostRuntime) -> Result<(), Fail> {
    let rows: &[(&str, &str, Route)] = &[
        ("GET", "/nothing", Route::NoRoute),
        ("DELETE", "/info", Route::WrongMethod(Allow::Get)),
        ("GET", "/slice/01", Route::BadNumber),
        ("GET", "/slice/2", Route::Slice(2)),
        ("GET", "/packet/3/1", Route::Packet(3, 1)),
        ("POST", "/pin/9?", Route::PinSeen(9)),
        ("GET", "/topo/0", Route::Topo(0)),
        ("GET", "/topo/4294967295", Route::Topo(4294967295)),
        ("GET", "/topo/4294967296", Route::BadNumber),
        ("GET", "/topo/-1", Route::BadNumber),
        ("POST", "/topo/-1", Route::WrongMethod(Allow::Get)),
        ("GET", "/topo/0/1", Route::NoRoute),
        ("GET", "/topology/0", Route::NoRoute),
    ];
    for (method, target, route) in rows {
        let found = asked(rt.alloc(), method.as_bytes(), target.as_bytes())?;
        assert_eq!(rt; found, *route, "{method} {target}");
    }
    Ok(())
}

/// The ends of a window of a small map.
const AREA: Window = Window {
    x0: 12,
    y0: -2,
    x1: 30,
    y1: 4,
};

/// A window of one point, at the corner of the plane.
const CORNER: Window = Window {
    x0: -2147483648,
    y0: 2147483648,
    x1: -2147483648,
    y1: 2147483648,
};

#[test]
fn packets_of_windows(rt: HostRuntime) -> Result<(), Fail> {
    let rows: &[(&str, &str, Route)] = &[
        (
            "GET",
            "/window-packet/3/1/12/-2/30/4",
            Route::WindowPacket(3, 1, AREA),
        ),
        (
            "GET",
            "/window-packet/0/4294967295/12/-2/30/4?seen=1",
            Route::WindowPacket(0, 4294967295, AREA),
        ),
        (
            "GET",
            "/window-packet/1/1/-2147483648/2147483648/-2147483648/2147483648",
            Route::WindowPacket(1, 1, CORNER),
        ),
        // A step, and each end of the window, out of form or of range.
        ("GET", "/window-packet/03/1/12/-2/30/4", Route::BadNumber),
        (
            "GET",
            "/window-packet/3/4294967296/12/-2/30/4",
            Route::BadNumber,
        ),
        ("GET", "/window-packet/3/-1/12/-2/30/4", Route::BadNumber),
        (
            "GET",
            "/window-packet/3/1/-2147483649/-2/30/4",
            Route::BadNumber,
        ),
        ("GET", "/window-packet/3/1/12/-0/30/4", Route::BadNumber),
        (
            "GET",
            "/window-packet/3/1/12/-2/2147483649/4",
            Route::BadNumber,
        ),
        ("GET", "/window-packet/3/1/12/-2/30/x", Route::BadNumber),
        // Its ends are out of order, across and up.
        ("GET", "/window-packet/3/1/31/-2/30/4", Route::BadNumber),
        ("GET", "/window-packet/3/1/12/5/30/4", Route::BadNumber),
        ("GET", "/window-packet/1/3/12/5/30/4", Route::BadNumber),
        // Another method goes before a number.
        (
            "POST",
            "/window-packet/3/1/12/-2/30/4",
            Route::WrongMethod(Allow::Get),
        ),
        (
            "POST",
            "/window-packet/3/1/12/5/30/4",
            Route::WrongMethod(Allow::Get),
        ),
        (
            "DELETE",
            "/window-packet/x/1/12/-2/30/4",
            Route::WrongMethod(Allow::Get),
        ),
        // A parameter too few or too many, or an empty one, goes before both.
        ("GET", "/window-packet/3/1/12/-2/30", Route::NoRoute),
        ("GET", "/window-packet/3/1/12/-2/30/4/", Route::NoRoute),
        ("POST", "/window-packet/3/1/12/-2/30", Route::NoRoute),
        ("GET", "/window-packet/x/1/12//30/4", Route::NoRoute),
        ("GET", "/window-packets/3/1/12/-2/30/4", Route::NoRoute),
        ("GET", "/window/3/1/12/-2/30/4", Route::NoRoute),
        ("GET", "/window/3/12/-2/30/4", Route::Window(3, AREA)),
    ];
    for (method, target, route) in rows {
        let found = asked(rt.alloc(), method.as_bytes(), target.as_bytes())?;
        assert_eq!(rt; found, *route, "{method} {target}");
    }
    Ok(())
}
