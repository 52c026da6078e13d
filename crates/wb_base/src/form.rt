//! Questionnaires.
ghost use Rattle.std.specs.Prelude.{◌≡◌, ◌<◌, length, slice_get, Some};
ghost use Rattle.wb_base.specs.FormFields.{one_point, parts_of, least_of};
ghost use Rattle.wb_base.specs.FormParts.{part_at};

use crate::Text;
use wb_list::Items;

/// A questionnaire.
#[derive(Drop, PartialEq, Eq)]
pub struct Form {
    pub steps: Items<Step>,
}

/// A page of a questionnaire.
#[derive(Drop, PartialEq, Eq)]
pub struct Step {
    /// 1 to 256 bytes.
    pub title: Text,
    pub fields: Items<Field>,
}

/// A question.
#[derive(Drop, PartialEq, Eq)]
pub struct Field {
    /// 1 to 32 bytes of `a` to `z`, `0` to `9` and `_`.
    pub id: Text,
    /// 1 to 256 bytes.
    pub label: Text,
    pub kind: FieldKind,
    /// Whether it must be answered where it is shown.
    pub required: bool,
    /// Whether its answer tells who the reporter is, and is sealed.
    pub identity: bool,
    pub show: Trigger,
}

/// What answers a question takes.
#[derive(Drop, PartialEq, Eq)]
pub enum FieldKind {
    /// A text of at most so many bytes, 1 to 65,536.
    Text { max: u32 },
    /// One of the options.
    Choice { options: Items<Choice> },
    /// Some of the options, each once.
    Multi { options: Items<Choice> },
    /// A date `YYYY-MM-DD`.
    Date,
    /// A truth value.
    Check,
    /// A whole number from -10^12 to 10^12.
    Whole,
    /// A file of at most 150,000 bytes, in base64 (RFC 4648, section 4).
    File,
}

/// An option of a question.
#[derive(Drop, PartialEq, Eq)]
pub struct Choice {
    /// 1 to 32 bytes of `a` to `z`, `0` to `9` and `_`.
    pub id: Text,
    /// 1 to 256 bytes.
    pub label: Text,
}

/// How JSON says when a question is shown.
#[derive(Clone, Copy, Debug, PartialEq, Eq)]
pub enum Format {
    /// By `any`, `all` or `score`, as a form is sent and shown.
    Plain,
    /// By `least`, `mode` and `parts`, as a form is kept.
    Weighed,
}

/// When a question is shown.
#[derive(Drop, PartialEq, Eq)]
pub enum Trigger {
    Always,
    /// Where one of the conditions is met.
    Any(Items<Cond>),
    /// Where all conditions are met.
    All(Items<Cond>),
    /// Where the points of the parts that are met add up to at least so many, 1 to 16,000.
    Score { least: u32, parts: Items<Part> },
}

/// The condition that an earlier question is shown and answered with an option.
#[derive(Drop, PartialEq, Eq)]
pub struct Cond {
    /// The id of the earlier question.
    pub field: Text,
    /// The id of its option.
    pub option: Text,
}

/// A condition that gives points where it is met.
#[derive(Drop, PartialEq, Eq)]
pub struct Part {
    /// The id of the earlier question.
    pub field: Text,
    /// The id of its option.
    pub option: Text,
    /// 1 to 1,000.
    pub points: u16,
}

/// A part of a trigger, looked at.
#[derive(Clone, Copy)]
pub struct PartOf<'a> {
    /// The id of the earlier question.
    pub field: &'a Text,
    /// The id of its option.
    pub option: &'a Text,
    /// What it gives where it is met.
    pub points: u16,
}

impl Cond {
    fn part(&self) -> PartOf<'_>
        ensures { part_at result ≡ one_point self.now }
    {
        PartOf {
            field: &self.field,
            option: &self.option,
            points: 1,
        }
    }
}

impl Part {
    fn part(&self) -> PartOf<'_>
        ensures { part_at result ≡ self.now }
    {
        PartOf {
            field: &self.field,
            option: &self.option,
            points: self.points,
        }
    }
}

/// Each trigger can be looked at as parts with points: any asks for one point, all for one of each condition.
impl Trigger {
    /// How many parts it has.
    pub fn len(&self) -> usize
        ensures { result ≡ length (parts_of self.now) }
    {
        match self {
            Trigger::Always => 0,
            Trigger::Any(conds) => conds.len(),
            Trigger::All(conds) => conds.len(),
            Trigger::Score { parts, .. } => parts.len(),
        }
    }

    /// The points that it wants.
    pub fn least(&self) -> usize
        ensures { result ≡ least_of self.now }
    {
        match self {
            Trigger::Always => 0,
            Trigger::Any(_) => 1,
            Trigger::All(conds) => conds.len(),
            Trigger::Score { least, .. } => *least as usize,
        }
    }

    /// The part at a place, counted from 0.
    pub fn part(&self, at: usize) -> PartOf<'_>
        requires { at < length (parts_of self.now) }
        ensures { slice_get (parts_of self.now) at ≡ Some (part_at result) }
    {
        match self {
            Trigger::Always => unreachable!(),
            Trigger::Any(conds) => conds.get(at).part(),
            Trigger::All(conds) => conds.get(at).part(),
            Trigger::Score { parts, .. } => parts.get(at).part(),
        }
    }
}
