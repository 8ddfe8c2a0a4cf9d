// The numbers under which refusals and verdicts are told, and the default settings.
ghost use Rattle.std.specs.Prelude.{◌≡◌};
ghost use Rattle.records.specs.Numbers.{refusal_number, failure_number, verdict_number, verdict_address, verdict_code, default_settings};

use crate::{Address, Refusal, SendFailure, Settings, Verdict};

impl From<Refusal> for u8 {
    ghost from_gives = { λ r n. n ≡ refusal_number r };

    fn from(r: Refusal) -> u8 {
        match r {
            Refusal::TimeTooLate => 1,
            Refusal::IdsExhausted => 2,
            Refusal::NoCopies => 3,
            Refusal::NoPlace => 4,
            Refusal::NoSuchSend => 5,
            Refusal::InTheRadio => 6,
            Refusal::NotInTheRadio => 7,
            Refusal::OtherFrame => 8,
            Refusal::DestinationNotHeld => 9,
            Refusal::ResultsMismatch => 10,
            Refusal::MapMalformed => 11,
            Refusal::UnknownKind => 12,
            Refusal::RecordCut => 13,
            Refusal::FieldMalformed => 14,
            Refusal::AnswersDoNotFit => 15,
            Refusal::TraceTooLong => 16,
        }
    }
}

impl From<SendFailure> for u8 {
    ghost from_gives = { λ f n. n ≡ failure_number f };

    fn from(f: SendFailure) -> u8 {
        match f {
            SendFailure::HandoffTimeout => 1,
            SendFailure::ApsAckTimeout => 2,
            SendFailure::IndirectExpired(_) => 3,
            SendFailure::RouteDiscoveryTimeout => 4,
            SendFailure::BroadcastQuorumNotReached => 5,
            SendFailure::Cancelled => 6,
        }
    }
}

impl From<Verdict> for u8 {
    ghost from_gives = { λ v n. n ≡ verdict_number v };

    fn from(v: Verdict) -> u8 {
        match v {
            Verdict::Success => 0,
            Verdict::Failure(f) => f.into(),
            Verdict::Code(_) => 7,
        }
    }
}

// The poll address of an expired send, where the verdict has one.
pub fn verdict_address(v: Verdict) -> Address
    ensures { result ≡ verdict_address v }
{
    match v {
        Verdict::Failure(SendFailure::IndirectExpired(a)) => a,
        _ => Address::Absent,
    }
}

// The caller's code, where the verdict has one, and 0 elsewhere.
pub fn verdict_code(v: Verdict) -> u16
    ensures { result ≡ verdict_code v }
{
    match v {
        Verdict::Code(c) => c,
        Verdict::Success | Verdict::Failure(_) => 0,
    }
}

// The settings in force until others are given.
impl Default for Settings {
    ghost is_default = { λ s. s ≡ default_settings };

    fn default() -> Settings {
        Settings {
            handoff_timeout: 8000,
            persistence_time: 7680,
            unicast_retries: 3,
            discovery_attempts: 3,
        }
    }
}
