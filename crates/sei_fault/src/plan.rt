//! The faults that a script may plan: at which step, and of which kind.
ghost use Rattle.std.specs.Prelude.{◌≡◌};
ghost use Rattle.sei_fault.specs.declared.place.Site.{Site};
ghost use Rattle.sei_fault.specs.declared.plan.StepCounts.{StepCounts};
ghost use Rattle.sei_fault.specs.Plans.{same_place, selects, fits, none_yet, one_value_more, fault};
ghost use Rattle.sei_fault.specs.Question.Question.{Value, Written, Test, Often, Goes};

use super::{Act, Phase, Place, Site, Times};

/// How a planned fault selects its step among those of its phase. An address is that of a word of
/// the bucket.
#[derive(Clone, Copy, Debug, PartialEq, Eq)]
pub enum Select {
    /// The step with this index.
    Index(u64),
    /// A step that reads the word at this address.
    Load(u64),
    /// A step that writes the word at this address.
    Store(u64),
    /// A step that asks what time it is.
    Now,
    /// A step that asks for a slot that is not in use.
    Alloc,
    /// A step that reads the input into words.
    Parse,
    /// A step that makes the output bytes from words.
    Render,
    /// A step that ends a pass.
    Halt,
}

impl Select {
    /// Whether a step with this index and this act is selected.
    fn selects(&self, index: u64, act: Act) -> bool
        ensures { result ≡ selects self.now index act }
    {
        match (*self, act) {
            (Select::Index(number), _) => index == number,
            (Select::Load(address), Act::Load(at)) => at == address,
            (Select::Store(address), Act::Store(at)) => at == address,
            (Select::Now, Act::Now) => true,
            (Select::Alloc, Act::Alloc) => true,
            (Select::Parse, Act::Parse) => true,
            (Select::Render, Act::Render) => true,
            (Select::Halt, Act::Halt) => true,
            _ => false,
        }
    }
}

/// What a planned fault does in its step. Each kind alters one answer of the core.
#[derive(Clone, Copy, Debug, PartialEq, Eq)]
pub enum Kind {
    /// Xors one number that is read with a mask.
    Read {
        /// Which one: how many are read before it in the step.
        nth: u64,
        /// The mask. A mask of 0 alters nothing, and is no strike.
        mask: u64,
    },
    /// Xors the first number that is stored with a mask.
    Write {
        /// The mask. A mask of 0 alters nothing, and is no strike.
        mask: u64,
    },
    /// Leaves the act out.
    Skip,
    /// Has the act done twice.
    Repeat,
    /// Goes on at another place.
    Jump {
        /// That place. If the step goes on there anyway, nothing is altered, and that is no strike.
        to: Place,
    },
    /// Negates the outcome of the first comparison.
    Flip,
}

/// How many answers of each kind that a fault counts a step got so far.
#[derive(Clone, Copy)]
pub(crate) struct StepCounts {
    /// How many numbers were read. At its last value the count does not change.
    pub(crate) value: u64,
}

impl StepCounts {
    /// No answer was given yet.
    pub(crate) fn new() -> StepCounts
        ensures { result ≡ none_yet }
    {
        StepCounts { value: 0 }
    }

    /// One number more was read.
    pub(crate) fn with_value(self) -> StepCounts
        ensures { result ≡ one_value_more self }
    {
        StepCounts {
            value: self.value.saturating_add(1),
        }
    }
}

impl Kind {
    /// What is given in place of the number that is read, if it is altered. `so_far` counts the
    /// answers before in the step.
    pub(crate) fn read(&self, so_far: StepCounts, honest: u64) -> Option<u64>
        ensures { result ≡ fault self.now so_far (Value honest) }
    {
        match *self {
            Kind::Read { nth, mask } if so_far.value == nth && mask != 0 => Some(honest ^ mask),
            _ => None,
        }
    }

    /// What is given in place of the number that is stored, if it is altered.
    pub(crate) fn written(&self, honest: u64) -> Option<u64>
        ensures { (so_far : StepCounts) → result ≡ fault self.now so_far (Written honest) }
    {
        match *self {
            Kind::Write { mask } if mask != 0 => Some(honest ^ mask),
            _ => None,
        }
    }

    /// What is given in place of the outcome of the comparison, if it is altered.
    pub(crate) fn test(&self, honest: bool) -> Option<bool>
        ensures { (so_far : StepCounts) → result ≡ fault self.now so_far (Test honest) }
    {
        match *self {
            Kind::Flip => Some(!honest),
            _ => None,
        }
    }

    /// How often the act is done, if that is altered.
    pub(crate) fn times(&self) -> Option<Times>
        ensures { (so_far : StepCounts) (site : Site) → result ≡ fault self.now so_far (Often site) }
    {
        match *self {
            Kind::Skip => Some(Times::Skip),
            Kind::Repeat => Some(Times::Twice),
            _ => None,
        }
    }

    /// Where the traversal goes on, if that is altered.
    pub(crate) fn next(&self, honest: Place) -> Option<Place>
        ensures { (so_far : StepCounts) → result ≡ fault self.now so_far (Goes honest) }
    {
        match *self {
            Kind::Jump { to } if !is_place(to, honest) => Some(to),
            _ => None,
        }
    }
}

/// Whether both are the same place.
fn is_place(one: Place, other: Place) -> bool
    ensures { result ≡ same_place one other }
{
    one.phase == other.phase && one.index == other.index
}

/// A fault that comes once in a traversal, at the first step that it fits.
#[derive(Clone, Copy, Debug, PartialEq, Eq)]
pub struct Planned {
    /// The phase of its step.
    pub phase: Phase,
    /// Which step of the phase it is.
    pub select: Select,
    /// What it does there.
    pub kind: Kind,
}

impl Planned {
    /// Whether the step at this site is of the phase and is selected.
    pub fn fits(&self, site: Site) -> bool
        ensures { result ≡ fits self.now site }
    {
        self.phase == site.place.phase && self.select.selects(site.place.index, site.act)
    }
}
