//! What a host answers turn by turn.
use std::alloc::Global;
use std::test::Fail;
use wb_base::{MemKeeper, Moment, Words};
use wb_desk::Desk;
use wb_tenants::Setup;
use wb_wire::{Routes, read_request};

/// A turn: seconds after the start of 2025 in UTC; method and path; the turn whose login made the session, or 0 for no
/// session; the body; and the status and the body of the reply. Turn k is made with the words 0, k, 0, k.
pub type Turn<'a> = (u32, &'a str, u64, &'a str, u16, &'a str);

/// 2025-01-01 00:00 in UTC.
const NEW_YEAR: u64 = 1_735_689_600;

/// The reply's body where a change is done.
pub const DONE: &str = r#"{"done":true}"#;

// A request to a path with a session, where one is named, and a body, where there is one.
fn request(alloc: Global, target: &str, session: u64, body: &str) -> Result<String, Fail> {
    let named = if session == 0 {
        String::new(alloc)
    } else {
        format!(in alloc; "X-Session: {session}-{session:032x}\r\n")?
    };
    let length = if body.is_empty() {
        String::new(alloc)
    } else {
        format!(in alloc; "Content-Length: {}\r\n", body.len())?
    };
    Ok(format!(in alloc; "{target} HTTP/1.1\r\nHost: h\r\n{named}{length}\r\n{body}")?)
}

/// A host over a setup, with the keeper of its rows.
#[derive(Drop)]
pub struct Host {
    alloc: Global,
    routes: Routes,
    desk: Desk,
    keeper: MemKeeper,
}

impl Host {
    /// A host over a setup, whose keeper fails at these calls.
    pub fn open(alloc: Global, setup: &str, fail: &[u64]) -> Result<Host, Fail> {
        let routes = Routes::new(alloc)?;
        let mut keeper = keeper(alloc, fail)?;
        let Ok(setup) = Setup::read(alloc, setup.as_bytes()) else {
            return Err("a setup".into());
        };
        match Desk::open(alloc, &mut keeper, &setup) {
            Ok(desk) => Ok(Host {
                alloc,
                routes,
                desk,
                keeper,
            }),
            Err(_) => Err("a host".into()),
        }
    }

    /// Makes a turn with the words 0, k, 0, k, and says whether its reply is the wanted one.
    pub fn answers(&mut self, k: u64, turn: &Turn) -> Result<bool, Fail> {
        let (seconds, target, session, body, status, reply) = *turn;
        let Some(moment) = Moment::try_new(NEW_YEAR + u64::from(seconds)) else {
            return Err("a moment".into());
        };
        let text = request(self.alloc, target, session, body)?;
        let Ok(asked) = read_request(self.alloc, &self.routes, text.as_bytes()) else {
            return Err("a request".into());
        };
        let words = Words([0, k, 0, k]);
        let told = self.desk.step(&mut self.keeper, &asked, moment, &words);
        Ok(told.status == status && told.body.as_bytes() == reply.as_bytes())
    }

    /// How many rows are kept, and how many reports are live and sessions stand.
    pub fn holds(&self) -> (usize, u64, u64) {
        let counts = self.desk.counts();
        (self.keeper.rows().len(), counts.live, counts.sessions)
    }

    /// Whether the host tells the rows that are kept.
    pub fn tells_its_rows(&self) -> Result<bool, Fail> {
        Ok(self.desk.rows()?.as_slice() == self.keeper.rows())
    }
}

/// A keeper that holds nothing yet and fails at these calls.
pub fn keeper(alloc: Global, fail: &[u64]) -> Result<MemKeeper, Fail> {
    Ok(MemKeeper::new(Vec::new(alloc), fail.to_vec(alloc)?))
}
