//! The table of routes, by which a path is looked up.

ghost use Rattle.std.specs.Prelude.{◌≡◌, [], Some, None, IfOk, IfSome, IfNone, OnOk};
ghost use Rattle.http_face.specs.Parameters.{taken, AreTexts};
ghost use Rattle.http_face.specs.Routes.{find_in, resources, segments_of};
ghost use Rattle.http_face.specs.Table.{HasPlace, the_rows, version_rows, with_row};

use crate::request::Resource;
use matchit::{InsertError, Match, Router};
use std::alloc::Global;
use tgap_model::Memory;

/// The table of routes.
#[derive(Drop)]
pub struct Routes {
    router: Router<Resource>,
    ghost table: { router ≡ the_rows },
}

impl Routes {
    /// The table, with each of its rows.
    pub(crate) fn new(alloc: Global) -> Result<Routes, Memory> {
        let router = filled(alloc)?;
        Ok(Routes { router })
    }

    /// The row that a path is of, with the parameters that the path has there, each of which is UTF-8.
    pub(crate) fn find<'r, 'p>(&'r self, path: &'p str) -> Option<Match<'r, 'p, &'r Resource>>
        ensures row { IfSome result (λ found. find_in resources (segments_of path.now) ≡ Some (found.value.now, taken found.params)) }
        ensures texts { IfSome result (λ found. AreTexts (taken found.params)) }
        ensures none { IfNone result (find_in resources (segments_of path.now) ≡ None) }
    {
        self.router.at(path).ok()
    }
}

/// A router of the rows.
fn filled(alloc: Global) -> Result<Router<Resource>, Memory>
    ensures { IfOk result (λ router. router ≡ the_rows) }
{
    let mut router = Router::new(alloc);
    put_version_rows(&mut router)?;
    put_map_rows(&mut router)?;
    Ok(router)
}

/// The rows of versions and of edits.
fn put_version_rows(router: &mut Router<Resource>) -> Result<(), Memory>
    requires { router.old ≡ [] }
    ensures { OnOk result (router.new ≡ version_rows) }
{
    put_in(router, "/info", Resource::Info)?;
    put_in(router, "/pin", Resource::Pin)?;
    put_in(router, "/pin/{seen}", Resource::PinSeen)?;
    put_in(router, "/edit", Resource::Edit)?;
    Ok(())
}

/// The rows of what is read of a map.
fn put_map_rows(router: &mut Router<Resource>) -> Result<(), Memory>
    requires { router.old ≡ version_rows }
    ensures { OnOk result (router.new ≡ the_rows) }
{
    put_in(router, "/slice/{step}", Resource::Slice)?;
    put_in(router, "/packet/{from}/{to}", Resource::Packet)?;
    put_in(
        router,
        "/window/{step}/{x0}/{y0}/{x1}/{y1}",
        Resource::Window,
    )?;
    put_in(router, "/topo/{step}", Resource::Topo)?;
    put_in(
        router,
        "/window-packet/{from}/{to}/{x0}/{y0}/{x1}/{y1}",
        Resource::WindowPacket,
    )?;
    Ok(())
}

/// One row more, whose route is well formed and conflicts with none that is there.
fn put_in(router: &mut Router<Resource>, route: &str, resource: Resource) -> Result<(), Memory>
    requires { HasPlace route.now router.old }
    ensures { OnOk result (router.new ≡ with_row route.now resource router.old) }
{
    match router.insert(route, resource) {
        Ok(()) => Ok(()),
        Err(InsertError::OutOfMemory) => Err(Memory),
        Err(_) => unreachable!(),
    }
}
