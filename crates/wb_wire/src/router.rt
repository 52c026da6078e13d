//! The row of a path.
ghost use Rattle.std.specs.Prelude.{◌≡◌, ◌+◌, ◌≤◌, length, codes, true, OnOk};
ghost use Rattle.matchit.specs.Route.{parse_route};
ghost use Rattle.wb_base.specs.AnswerList.{is_text};
ghost use Rattle.wb_model.specs.Routes.{number_of_path, with_read, with_patterns};
ghost use Rattle.wb_wire.specs.Fitting.{fits_in, all_fit};
ghost use Rattle.wb_wire.specs.Paths.{patterns_of};

use crate::paths::{Path, routed_paths};
use matchit::{InsertError, Router};
use std::alloc::Global;
use std::marker::Model;
use std::str;
use wb_base::Memory;
use wb_model::PathNo;

/// Finds the row of a path. It holds every path but `/health`, which is compared by itself.
#[derive(Drop)]
pub struct Routes {
    router: Router<PathNo>,
}

impl Model for Routes {
    ghost use Rattle.std.specs.Prelude.{◌≡◌};
    ghost use Rattle.wb_model.specs.Routes.{Rows, router as host_router};

    ghost Value = { Rows };

    ghost view = { λ r. r.router };

    ghost invariant = { λ r. r.router ≡ host_router };
}

// Puts a path into the router.
fn add(router: &mut Router<PathNo>, pattern: &str, number: PathNo) -> Result<(), Memory>
    requires { fits_in (parse_route pattern.now) router.old ≡ true }
    ensures { OnOk result (router.new ≡ with_read (parse_route pattern.now) number router.old) }
{
    match router.insert(pattern, number) {
        Ok(()) => Ok(()),
        Err(InsertError::OutOfMemory) => Err(Memory),
        Err(_) => unreachable!(),
    }
}

// Puts paths into the router, numbered from this one.
fn add_all(router: &mut Router<PathNo>, paths: &[Path], first: u8) -> Result<(), Memory>
    requires low { 1 ≤ first }
    requires high { first + length paths.now ≤ 30 }
    requires fits { all_fit (patterns_of paths.now) first router.old ≡ true }
    ensures { OnOk result (router.new ≡ with_patterns (patterns_of paths.now) first router.old) }
{
    let mut number = first;
    for path in paths {
        let Some(path_number) = PathNo::try_new(number) else {
            unreachable!();
        };
        add(router, path.pattern, path_number)?;
        number += 1;
    }
    Ok(())
}

// Whether the path is that of the host's health.
fn is_health(path: &[u8]) -> bool
    ensures { result ≡ is_text path.now (codes "/health") }
{
    path == b"/health".as_slice()
}

impl Routes {
    /// The router of all paths.
    pub fn new(alloc: Global) -> Result<Routes, Memory> {
        let mut router = Router::new(alloc);
        add_all(&mut router, routed_paths(), 2)?;
        Ok(Routes { router })
    }

    /// The number of a path's row. It takes no memory.
    pub fn number_of(&self, path: &[u8]) -> Option<PathNo>
        ensures { result ≡ number_of_path path.now }
    {
        if is_health(path) {
            return PathNo::try_new(1);
        }
        let text = match str::from_utf8(path) {
            Ok(text) => text,
            Err(_) => return None,
        };
        match self.router.at(text) {
            Ok(found) => Some(*found.value),
            Err(_) => None,
        }
    }
}
