// The state table of the unit (02, P7): what is done with a record, by the state and by what the record is.
ghost use Rattle.std.specs.Prelude.{◌≡◌};
ghost use Rattle.unit.specs.State.{kind_of, rule_of, opened_rule, settled};

use record::header::Content;

#[derive(Clone, Copy)]
pub enum State {
    Idle,
    // the hello is written
    Sent,
    // the ServerHello is read
    Replied,
    // the shore's change cipher spec is read
    Spec,
    // the shore's Finished is verified, and our flight is written
    Opening,
    // the first data or the warning on a repeated Finished has come
    Open,
    Closed,
    Barred,
}

// What a record is, as the table tells records apart: clear ones, and protected ones.
#[derive(Clone, Copy)]
pub enum Kind {
    ClearHello,
    ClearRequest,
    ClearChange,
    ClearAlert,
    OtherClear,
    ProtectedChange,
    ProtectedAlert,
    ProtectedHandshake,
    ProtectedData,
}

// What the table does with a record.
#[derive(Clone, Copy)]
pub enum Rule {
    // 7
    Ended,
    // 8
    NotAllowed,
    // a ServerHello
    Agree,
    // a clear HelloRequest
    Request,
    // change cipher spec
    Change,
    // a clear alert, by level
    Hear,
    // a protected record: code, window, content
    Unprotect,
}

// What a record is. A clear handshake record that begins with byte 2 counts as a ServerHello, one that begins with byte 0 as
// a HelloRequest.
pub fn kind_of(content: Content, protected: bool, first: u8) -> Kind
    ensures { result ≡ kind_of content protected first }
{
    if protected {
        return match content {
            Content::ChangeCipherSpec => Kind::ProtectedChange,
            Content::Alert => Kind::ProtectedAlert,
            Content::Handshake => Kind::ProtectedHandshake,
            Content::Data => Kind::ProtectedData,
        };
    }
    match content {
        Content::ChangeCipherSpec => Kind::ClearChange,
        Content::Alert => Kind::ClearAlert,
        Content::Handshake => {
            if first == 2 {
                return Kind::ClearHello;
            }
            if first == 0 {
                return Kind::ClearRequest;
            }
            Kind::OtherClear
        }
        Content::Data => Kind::OtherClear,
    }
}

pub fn rule_of(state: State, kind: Kind) -> Rule
    ensures { result ≡ rule_of state kind }
{
    match state {
        State::Idle => match kind {
            Kind::ClearHello => Rule::NotAllowed,
            Kind::ClearRequest => Rule::Request,
            Kind::ClearChange => Rule::NotAllowed,
            Kind::ClearAlert => Rule::NotAllowed,
            Kind::OtherClear => Rule::NotAllowed,
            Kind::ProtectedChange => Rule::NotAllowed,
            Kind::ProtectedAlert => Rule::NotAllowed,
            Kind::ProtectedHandshake => Rule::NotAllowed,
            Kind::ProtectedData => Rule::NotAllowed,
        },
        State::Sent => match kind {
            Kind::ClearHello => Rule::Agree,
            Kind::ClearRequest => Rule::Request,
            Kind::ClearChange => Rule::NotAllowed,
            Kind::ClearAlert => Rule::Hear,
            Kind::OtherClear => Rule::NotAllowed,
            Kind::ProtectedChange => Rule::NotAllowed,
            Kind::ProtectedAlert => Rule::NotAllowed,
            Kind::ProtectedHandshake => Rule::NotAllowed,
            Kind::ProtectedData => Rule::NotAllowed,
        },
        State::Replied => match kind {
            Kind::ClearHello => Rule::Agree,
            Kind::ClearRequest => Rule::Request,
            Kind::ClearChange => Rule::Change,
            Kind::ClearAlert => Rule::Hear,
            Kind::OtherClear => Rule::NotAllowed,
            Kind::ProtectedChange => Rule::NotAllowed,
            Kind::ProtectedAlert => Rule::NotAllowed,
            Kind::ProtectedHandshake => Rule::NotAllowed,
            Kind::ProtectedData => Rule::NotAllowed,
        },
        State::Spec => match kind {
            Kind::ClearHello => Rule::Agree,
            Kind::ClearRequest => Rule::Request,
            Kind::ClearChange => Rule::NotAllowed,
            Kind::ClearAlert => Rule::Hear,
            Kind::OtherClear => Rule::NotAllowed,
            Kind::ProtectedChange => Rule::NotAllowed,
            Kind::ProtectedAlert => Rule::Unprotect,
            Kind::ProtectedHandshake => Rule::Unprotect,
            Kind::ProtectedData => Rule::NotAllowed,
        },
        State::Opening => opened_rule(kind),
        State::Open => opened_rule(kind),
        State::Closed => Rule::Ended,
        State::Barred => Rule::Ended,
    }
}

// In Opening and in Open.
fn opened_rule(kind: Kind) -> Rule
    ensures { result ≡ opened_rule kind }
{
    match kind {
        Kind::ClearHello => Rule::NotAllowed,
        Kind::ClearRequest => Rule::Request,
        Kind::ClearChange => Rule::NotAllowed,
        Kind::ClearAlert => Rule::NotAllowed,
        Kind::OtherClear => Rule::NotAllowed,
        Kind::ProtectedChange => Rule::Unprotect,
        Kind::ProtectedAlert => Rule::Unprotect,
        Kind::ProtectedHandshake => Rule::Unprotect,
        Kind::ProtectedData => Rule::Unprotect,
    }
}

// The first data, or the warning on a repeated Finished, leads from Opening to Open.
pub(crate) fn settled(state: State) -> State
    ensures { result ≡ settled state }
{
    match state {
        State::Idle => State::Idle,
        State::Sent => State::Sent,
        State::Replied => State::Replied,
        State::Spec => State::Spec,
        State::Opening => State::Open,
        State::Open => State::Open,
        State::Closed => State::Closed,
        State::Barred => State::Barred,
    }
}
