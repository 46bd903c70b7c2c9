//! The states of a movement, the results of control and the grounds of a write-off, and their names.
ghost use Rattle.std.specs.Prelude.{◌≡◌, ◌≢◌, None, IfSome};
ghost use Rattle.td_movement.specs.States.{NamesDiffer, control_name, ground_name, is_counting, state_name};
ghost use Rattle.td_movement.specs.declared.state.Control.{Control};
ghost use Rattle.td_movement.specs.declared.state.Ground.{Ground};
ghost use Rattle.td_movement.specs.declared.state.State.{State};

/// The state of a movement. The messages are those of NCTS; what each of them does is the office's profile.
#[derive(Clone, Copy, Debug, PartialEq, Eq)]
pub enum State {
    /// Declared (IE015), and its MRN allocated (IE028).
    Accepted,
    /// Cancelled at the holder's request (IE014), before release.
    Cancelled,
    /// Released for transit (IE029), with a day by which it has to arrive.
    Released,
    /// Not arrived in time, and asked after (IE140).
    Enquired,
    /// Arrived at an office (IE007, answered by IE006).
    Arrived,
    /// Control at destination was not satisfactory (IE018 with B1).
    Discrepant,
    /// Control at destination was satisfactory, or is considered so (IE018 with A1 or A2).
    Cleared,
    /// Written off (IE045): its amounts are given back.
    WrittenOff,
}

/// All states.
const STATES: [State; 8] = [
    State::Accepted,
    State::Cancelled,
    State::Released,
    State::Enquired,
    State::Arrived,
    State::Discrepant,
    State::Cleared,
    State::WrittenOff,
];

impl State {
    /// The name that replies, result files, reports and tables give the state.
    pub fn name(self) -> &'static str
        ensures { result.now ≡ state_name self }
    {
        match self {
            State::Accepted => "accepted",
            State::Cancelled => "cancelled",
            State::Released => "released",
            State::Enquired => "enquired",
            State::Arrived => "arrived",
            State::Discrepant => "discrepant",
            State::Cleared => "cleared",
            State::WrittenOff => "written-off",
        }
    }

    /// The state with exactly this name, if there is one.
    pub fn read(text: &[u8]) -> Option<Self>
        ensures some { IfSome result (λ state. state_name state ≡ text.now) }
        ensures none { result ≡ None → (state : State) → state_name state ≢ text.now }
    {
        'states: for state in STATES {
            if state.name().as_bytes() == text {
                return Some(state);
            }
        }
        None
    }
}

/// Whether a movement in this state counts against its guarantees: from release to write-off.
pub fn counts(state: State) -> bool
    ensures { result ≡ is_counting state }
{
    match state {
        State::Released | State::Enquired | State::Arrived | State::Discrepant | State::Cleared =>
            true,
        State::Accepted | State::Cancelled | State::WrittenOff => false,
    }
}

/// What control at destination found (IE018). The codes are the office's.
#[derive(Clone, Copy, Debug, PartialEq, Eq)]
pub enum Control {
    /// Satisfactory.
    A1,
    /// Considered satisfactory.
    A2,
    /// Not satisfactory.
    B1,
}

impl Control {
    /// The code, as messages have it.
    pub fn name(self) -> &'static str
        ensures { result.now ≡ control_name self }
    {
        match self {
            Control::A1 => "A1",
            Control::A2 => "A2",
            Control::B1 => "B1",
        }
    }

    /// The result with exactly this code, if there is one.
    pub fn read(text: &[u8]) -> Option<Self>
        ensures some { IfSome result (λ control. control_name control ≡ text.now) }
        ensures none { result ≡ None → (control : Control) → control_name control ≢ text.now }
    {
        match text {
            b"A1" => Some(Control::A1),
            b"A2" => Some(Control::A2),
            b"B1" => Some(Control::B1),
            _ => None,
        }
    }
}

/// On what ground a movement is written off (IE045).
#[derive(Clone, Copy, Debug, PartialEq, Eq)]
pub enum Ground {
    /// Control at destination cleared it.
    Results,
    /// It was asked after, and its end was proved otherwise.
    Proof,
}

impl Ground {
    /// The word for it, as messages have it.
    pub fn name(self) -> &'static str
        ensures { result.now ≡ ground_name self }
    {
        match self {
            Ground::Results => "results",
            Ground::Proof => "proof",
        }
    }

    /// The ground with exactly this word, if there is one.
    pub fn read(text: &[u8]) -> Option<Self>
        ensures some { IfSome result (λ g. ground_name g ≡ text.now) }
        ensures none { result ≡ None → (g : Ground) → ground_name g ≢ text.now }
    {
        match text {
            b"results" => Some(Ground::Results),
            b"proof" => Some(Ground::Proof),
            _ => None,
        }
    }
}

/// No two states, results or grounds have one name: what is read by its name is what was named.
pub fn names_differ()
    ensures { NamesDiffer }
{}
