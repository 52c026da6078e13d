//! The commands: which tenant each names, and who may call it.
ghost use Rattle.std.specs.Prelude.{◌≡◌};
ghost use Rattle.wb_model.specs.Commands.{need as needed_by, tenant_of as tenant_of_command};
ghost use Rattle.wb_desk.specs.Needs.{need_of};

use wb_base::Role;
use wb_model::Command;

/// A right of a recipient, or none that is needed.
#[derive(Clone, Copy, Debug, PartialEq, Eq)]
pub enum Right {
    Free,
    ToDelete,
    ToPostpone,
    ToShare,
    ToTransfer,
}

/// Who may call a command, and the report that it names.
#[derive(Clone, Copy, Debug, PartialEq, Eq)]
pub enum Need {
    /// No session.
    Anyone,
    /// Any session.
    AnySession,
    /// A reporter's session, on the own report.
    Own,
    /// A user of a role.
    Staff(Role),
    /// A user of a role and with a right, on the report of a number.
    Names(Role, Right, u32),
}

/// What a command's line in the table of commands has here: the tenant that its path names, 0 where it names none, and who may call it.
#[derive(Clone, Copy)]
pub struct Columns {
    pub tenant: u32,
    pub need: Need,
}

// A line of the table.
fn line(tenant: u32, need: Need) -> Columns
    ensures { result ≡ record { tenant = tenant; need = need } }
{
    Columns { tenant, need }
}

/// The line of a command.
pub fn columns_of(command: &Command) -> Columns
    ensures tenant { result.tenant ≡ tenant_of_command command.now }
    ensures need { need_of result.need ≡ needed_by command.now }
{
    match command {
        Command::Health => line(0, Need::Anyone),
        Command::Public { t }
        | Command::ContextOf { t, .. }
        | Command::Login { t, .. }
        | Command::ReceiptLogin { t, .. }
        | Command::Submit { t, .. } => line(*t, Need::Anyone),
        Command::Logout { t } => line(*t, Need::AnySession),
        Command::OwnReport { t }
        | Command::OwnComment { t, .. }
        | Command::GiveIdentity { t, .. } => { line(*t, Need::Own) }
        Command::List { t } | Command::DueList { t } => line(*t, Need::Staff(Role::Recipient)),
        Command::ReadReport { t, n }
        | Command::Comment { t, n, .. }
        | Command::Label { t, n, .. }
        | Command::SetStatus { t, n, .. }
        | Command::Acknowledge { t, n }
        | Command::Feedback { t, n, .. }
        | Command::Extend { t, n, .. }
        | Command::Ask { t, n, .. }
        | Command::ReadIdentity { t, n } => line(*t, Need::Names(Role::Recipient, Right::Free, *n)),
        Command::Share { t, n, .. } | Command::Unshare { t, n, .. } => {
            line(*t, Need::Names(Role::Recipient, Right::ToShare, *n))
        }
        Command::Transfer { t, n, .. } => {
            line(*t, Need::Names(Role::Recipient, Right::ToTransfer, *n))
        }
        Command::Postpone { t, n } => line(*t, Need::Names(Role::Recipient, Right::ToPostpone, *n)),
        Command::Delete { t, n } => line(*t, Need::Names(Role::Recipient, Right::ToDelete, *n)),
        Command::Requests { t } => line(*t, Need::Staff(Role::Custodian)),
        Command::Decide { t, n, .. } => line(*t, Need::Names(Role::Custodian, Right::Free, *n)),
        Command::Admin { t }
        | Command::SetSettings { t, .. }
        | Command::SetUser { t, .. }
        | Command::SetContext { t, .. }
        | Command::SetForm { t, .. } => line(*t, Need::Staff(Role::Admin)),
    }
}
