//! How the route of a request is found. The router goes over the path, and what it takes there for the parameters of the
//! row is read as numbers.

ghost use Rattle.std.specs.Prelude.{◌≡◌, ◌≤ℤ◌, IsTrue};
ghost use Rattle.http_face.specs.Routes.{route_of, route_of_path, path_of, read_parameters, request_of, window_at, is_ordered};

use crate::parameters::Parameters;
use crate::request::{Resource, Route};
use crate::table::Routes;
use std::alloc::Global;
use std::str::from_utf8;
use tgap_model::{Memory, Window};

/// The table of routes, for any number of calls of `route`. Making it takes memory; those calls take none.
pub fn routes(alloc: Global) -> Result<Routes, Memory> {
    Routes::new(alloc)
}

/// What a method and a target ask for. What stands before the first question mark of the target is its path, which is
/// not decoded. No such path comes first, then another method, then a number that is out of form or of its range. It
/// takes no memory.
pub fn route(routes: &Routes, method: &[u8], target: &[u8]) -> Route
    ensures { result ≡ route_of method.now target.now }
{
    match from_utf8(target) {
        Ok(target) => route_of_path(routes, method, path_of(target)),
        Err(_) => Route::NoRoute,
    }
}

/// The target up to its first question mark.
fn path_of(target: &str) -> &str
    ensures { result.now ≡ path_of target.now }
{
    match target.find('?') {
        Some(end) => &target[..end],
        None => target,
    }
}

/// What a path asks for.
fn route_of_path(routes: &Routes, method: &[u8], path: &str) -> Route
    ensures { result ≡ route_of_path method.now path.now }
{
    match routes.find(path) {
        Some(found) => {
            let parameters = Parameters::new(found.params.iter());
            request_of(method, *found.value, parameters)
        }
        None => Route::NoRoute,
    }
}

/// What a path of this row asks for.
fn request_of(method: &[u8], resource: Resource, parameters: Parameters) -> Route
    ensures { result ≡ request_of method.now resource parameters.entry }
{
    if method != resource.method().word().as_bytes() {
        return Route::WrongMethod(resource.method());
    }
    read_parameters(resource, parameters).unwrap_or(Route::BadNumber)
}

/// What the parameters of a row spell.
fn read_parameters(resource: Resource, mut parameters: Parameters) -> Option<Route>
    ensures { result ≡ read_parameters resource parameters.entry }
{
    match resource {
        Resource::Info => Some(Route::Info),
        Resource::Pin => Some(Route::Pin),
        Resource::PinSeen => Some(Route::PinSeen(u64::from(parameters.count_at()?))),
        Resource::Slice => Some(Route::Slice(parameters.count_at()?)),
        Resource::Packet => {
            let from = parameters.count_at()?;
            Some(Route::Packet(from, parameters.count_at()?))
        }
        Resource::Window => {
            let step = parameters.count_at()?;
            Some(Route::Window(step, window_at(parameters)?))
        }
        Resource::Topo => Some(Route::Topo(parameters.count_at()?)),
        Resource::WindowPacket => {
            let from = parameters.count_at()?;
            let to = parameters.count_at()?;
            Some(Route::WindowPacket(from, to, window_at(parameters)?))
        }
        Resource::Edit => Some(Route::Edit),
    }
}

/// The window that the next parameters spell, whose ends are in order.
fn window_at(mut parameters: Parameters) -> Option<Window>
    ensures { result ≡ window_at parameters.entry }
{
    let x0 = parameters.coordinate_at()?;
    let y0 = parameters.coordinate_at()?;
    let x1 = parameters.coordinate_at()?;
    let y1 = parameters.coordinate_at()?;
    let area = Window { x0, y0, x1, y1 };
    if is_ordered(area) { Some(area) } else { None }
}

/// Whether the ends of a window are in order, on each axis.
pub fn is_ordered(area: Window) -> bool
    ensures told { result ≡ is_ordered area }
    ensures across { IsTrue result → area.x0 ≤ℤ area.x1 }
    ensures up { IsTrue result → area.y0 ≤ℤ area.y1 }
{
    area.x0 <= area.x1 && area.y0 <= area.y1
}
