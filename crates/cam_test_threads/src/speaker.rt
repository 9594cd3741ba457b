//! A core for tests: each of four nodes says its numbers to the next one, which answers with a
//! number of its own.
ghost use Rattle.std.specs.Prelude.{◌≡◌, ◌↔◌, IsNone, IsTrue, IfOk};
ghost use Rattle.cam_journal.specs.Taking.{CanStep, IsStep, FaultsWithCause};
ghost use Rattle.cam_test_threads.specs.Speaking.{number_of, number_in, names, sends, faults_by, is_idle, Answers, IsLawful, IsReplay};

use cam_base::NoMemory;
use cam_journal::{Core, CoreFault, CoreInput};

/// A number that a node says to the next one.
#[derive(Clone, Copy, Debug, PartialEq, Eq)]
pub struct Remark {
    pub number: u64,
    pub to: u8,
    pub twice: bool,
}

/// What a node records: it says a number.
#[derive(Clone, Copy, Debug, PartialEq, Eq)]
pub enum Speech {
    /// To the next node.
    Spoken(Remark),
    /// In answer to the letter of an event, at its place. It sends no letter.
    Answer { number: u64, event: u64, place: u32 },
}

impl Speech {
    /// The number that it says.
    pub fn number(&self) -> u64
        ensures { result ≡ number_in self.now }
    {
        match self {
            Speech::Spoken(remark) => remark.number,
            Speech::Answer { number, .. } => *number,
        }
    }
}

/// A node of four that talk in a ring. Node `n` says `FIRST + n` first, and `STEP` more each time.
#[derive(Drop)]
pub struct Speaker<const FIRST: u32, const STEP: u32> {
    node: u8,
    said: u32,
    share: u32,
    twice: bool,
    answered: Option<u64>,
    trouble: Option<CoreFault>,
}

impl<const FIRST: u32, const STEP: u32> Speaker<FIRST, STEP> {
    /// A node that has said nothing. It is to speak by itself as often as its share says, and puts
    /// each remark into the mailbox of the next node once, or twice. Its first step that is not idle
    /// may fail.
    pub fn new(node: u8, share: u32, twice: bool, trouble: Option<CoreFault>) -> Self
        ensures node { result.node ≡ node }
        ensures said { result.said ≡ 0 }
    {
        Speaker {
            node,
            said: 0,
            share,
            twice,
            answered: None,
            trouble,
        }
    }

    // What it says next.
    fn number(&self) -> u64
        ensures { result ≡ number_of FIRST STEP self.now.node self.now.said }
    {
        u64::from(FIRST) + u64::from(self.node) + u64::from(STEP) * u64::from(self.said)
    }
}

impl<const FIRST: u32, const STEP: u32> Core for Speaker<FIRST, STEP> {
    type Event = Speech;

    type Letter = Remark;

    ghost use Rattle.cam_test_threads.specs.Speaking.{names, sends, copies, faults_by, is_idle, Answers, IsLawful, IsReplay};

    ghost faults = { λ core. faults_by core.trouble };

    ghost names = { names };

    ghost sends = { sends };

    ghost goes_to = { λ remark. remark.to };

    ghost copied = { copies };

    ghost lawful = { IsLawful FIRST STEP };

    ghost answers = { λ node history input speech. Answers input speech };

    ghost is_replay = { λ core node history. IsReplay core.node core.said node history };

    ghost is_idle = { λ core input. is_idle core.share core.answered input };

    fn step(&mut self, input: CoreInput<Remark>) -> Result<Option<Speech>, CoreFault>
        requires { CanStep (λ core node history. IsReplay core.node core.said node history) sends
            (λ remark. remark.to) (IsLawful FIRST STEP) self.old input }
        ensures step { IsStep (λ core node history. IsReplay core.node core.said node history)
            names (λ remark. remark.to) (IsLawful FIRST STEP)
            (λ node history input speech. Answers input speech) self.old input self.new result }
        ensures none { IfOk result
            (λ made. IsNone made ↔ IsTrue (is_idle self.old.share self.old.answered input)) }
        ensures cause { FaultsWithCause (faults_by self.old.trouble) (faults_by self.new.trouble)
            result }
    {
        if self.idle(&input) {
            return Ok(None);
        }
        if let Some(fault) = self.trouble.take() {
            return Err(fault);
        }
        let number = self.number();
        self.said += 1;
        match input {
            CoreInput::Drive => {
                self.share -= 1;
                Ok(Some(Speech::Spoken(Remark {
                    number,
                    to: self.node % 4 + 1,
                    twice: self.twice,
                })))
            }
            CoreInput::Letter {
                number: event,
                place,
                letter: _,
            } => {
                self.answered = Some(event);
                Ok(Some(Speech::Answer {
                    number,
                    event,
                    place,
                }))
            }
        }
    }

    fn idle(&self, input: &CoreInput<Remark>) -> bool {
        match input {
            CoreInput::Drive => self.share == 0,
            CoreInput::Letter { number, .. } => self.answered == Some(*number),
        }
    }

    fn copies(remark: &Remark) -> u8 {
        if remark.twice { 2 } else { 1 }
    }

    fn to(remark: &Remark) -> u8 {
        remark.to
    }

    fn letters(speech: &Speech) -> u32 {
        match speech {
            Speech::Spoken(_) => 1,
            Speech::Answer { .. } => 0,
        }
    }

    fn letter(speech: &Speech, _place: u32) -> Result<Remark, NoMemory> {
        match speech {
            Speech::Spoken(remark) => Ok(*remark),
            Speech::Answer { .. } => unreachable!(),
        }
    }

    fn copy(remark: &Remark) -> Result<Remark, NoMemory> {
        Ok(*remark)
    }
}
