//! The table of paths: their methods, and what each asks.
ghost use Rattle.std.specs.Prelude.{◌≡◌, length, map, drop, option_map};
ghost use Rattle.wb_model.specs.Routes.{paths as paths_of, patterns, path_at as row_of, route as route_of};
ghost use Rattle.wb_wire.specs.Paths.{path_of, patterns_of, methods_of, name_of};

use http::Method;
use wb_model::{PathNo, Route};

/// A method (RFC 9110, section 9).
#[derive(Clone, Copy)]
pub enum Verb {
    Get,
    Post,
    Put,
    Delete,
}

impl Verb {
    /// The method with its name.
    pub fn method(self) -> Method
        ensures { result ≡ name_of self }
    {
        match self {
            Verb::Get => Method::GET,
            Verb::Post => Method::POST,
            Verb::Put => Method::PUT,
            Verb::Delete => Method::DELETE,
        }
    }
}

/// A method that a path allows, and what it asks.
#[derive(Clone, Copy)]
pub struct Allowed {
    pub verb: Verb,
    pub route: Route,
}

/// A path, in which a name in braces stands for a number, and the methods that it allows, in the order of `Allow`.
pub struct Path {
    pub pattern: &'static str,
    pub methods: &'static [Allowed],
}

macro_rules! path {
    ($pattern:literal, $($verb:ident $route:ident),+) => {
        Path {
            pattern: $pattern,
            methods: &[$(Allowed { verb: Verb::$verb, route: Route::$route }),+],
        }
    };
}

static PATHS: [Path; 29] = [
    path!("/health", Get Health),
    path!("/t/{t}", Get Public),
    path!("/t/{t}/contexts/{c}", Get ContextOf),
    path!("/t/{t}/sessions", Post Login, Delete Logout),
    path!("/t/{t}/reports", Post Submit, Get List),
    path!("/t/{t}/report", Get OwnReport),
    path!("/t/{t}/report/comments", Post OwnComment),
    path!("/t/{t}/report/identity", Put GiveIdentity),
    path!("/t/{t}/due", Get DueList),
    path!("/t/{t}/reports/{n}", Get ReadReport, Delete Delete),
    path!("/t/{t}/reports/{n}/comments", Post Comment),
    path!("/t/{t}/reports/{n}/label", Put Label),
    path!("/t/{t}/reports/{n}/status", Put SetStatus),
    path!("/t/{t}/reports/{n}/acknowledgement", Post Acknowledge),
    path!("/t/{t}/reports/{n}/feedback", Post Feedback),
    path!("/t/{t}/reports/{n}/readers", Post Share),
    path!("/t/{t}/reports/{n}/readers/{u}", Delete Unshare),
    path!("/t/{t}/reports/{n}/transfer", Post Transfer),
    path!("/t/{t}/reports/{n}/postponement", Post Postpone),
    path!("/t/{t}/reports/{n}/access", Post Ask),
    path!("/t/{t}/reports/{n}/identity", Get ReadIdentity),
    path!("/t/{t}/access", Get Requests),
    path!("/t/{t}/access/{n}/{k}", Post Decide),
    path!("/t/{t}/admin", Get Admin),
    path!("/t/{t}/admin/settings", Put SetSettings),
    path!("/t/{t}/admin/users/{u}", Put SetUser),
    path!("/t/{t}/admin/contexts/{c}", Put SetContext),
    path!("/t/{t}/admin/forms/{f}", Put SetForm),
    path!("/t/{t}/reports/{n}/extension", Post Extend),
];

// All paths, in the order of their numbers.
fn paths() -> &'static [Path]
    ensures { map path_of result.now ≡ paths_of }
{
    &PATHS
}

/// The paths that a router holds: all but `/health`, numbered from 2.
pub fn routed_paths() -> &'static [Path]
    ensures patterns { patterns_of result.now ≡ drop 1 patterns }
    ensures count { length result.now ≡ 28 }
{
    &PATHS[1..]
}

/// The path of a number.
pub fn row(number: PathNo) -> Option<&'static Path>
    ensures { option_map (λ p. path_of p.now) result ≡ row_of number }
{
    paths().get(number.number() as usize - 1)
}

/// What a method of a path asks. It takes no memory, whatever the method.
pub fn route(name: &[u8], methods: &[Allowed]) -> Option<Route>
    ensures { result ≡ route_of name.now (methods_of methods.now) }
{
    for allowed in methods {
        if allowed.verb.method().as_str().as_bytes() == name {
            return Some(allowed.route);
        }
    }
    None
}
