// The state table of 01: what is done with a record, by the state and by what the record is.
ghost use Rattle.std.specs.Prelude.{◌≡◌};
ghost use Rattle.connection.specs.State.{kind_of, rule_of};

use record::header::Content;

#[derive(Clone, Copy)]
pub enum State {
    Idle,
    Replied,
    Spec,
    Open,
    Closed,
    Barred,
}

// What a record is, as the table tells records apart: clear ones, and protected ones.
#[derive(Clone, Copy)]
pub enum Kind {
    ClearHello,
    ClearChange,
    ClearAlert,
    OtherClear,
    ProtectedChange,
    ProtectedAlert,
    ProtectedHandshake,
    ProtectedData,
}

// What the table does with a record.
#[derive(Clone, Copy)]
pub enum Rule {
    // 7
    Ended,
    // 8
    NotAllowed,
    // the same reply to the same hello; 8 to another
    Resend,
    // a reply
    Greet,
    // the same reply to the same hello, a new one to another
    GreetAgain,
    // change cipher spec
    Change,
    // a clear alert, by level
    Hear,
    // a protected record: code, window, content
    OpenRecord,
}

// What a record is. A clear handshake record that begins with byte 1 counts as a ClientHello.
pub fn kind_of(content: Content, protected: bool, first: u8) -> Kind
    ensures { result ≡ kind_of content protected first }
{
    if protected {
        return match content {
            Content::ChangeCipherSpec => Kind::ProtectedChange,
            Content::Alert => Kind::ProtectedAlert,
            Content::Handshake => Kind::ProtectedHandshake,
            Content::Data => Kind::ProtectedData,
        };
    }
    match content {
        Content::ChangeCipherSpec => Kind::ClearChange,
        Content::Alert => Kind::ClearAlert,
        Content::Handshake => {
            if first == 1 {
                return Kind::ClearHello;
            }
            Kind::OtherClear
        }
        Content::Data => Kind::OtherClear,
    }
}

pub fn rule_of(state: State, kind: Kind) -> Rule
    ensures { result ≡ rule_of state kind }
{
    match state {
        State::Idle => match kind {
            Kind::ClearHello => Rule::Greet,
            Kind::ClearChange => Rule::NotAllowed,
            Kind::ClearAlert => Rule::NotAllowed,
            Kind::OtherClear => Rule::NotAllowed,
            Kind::ProtectedChange => Rule::NotAllowed,
            Kind::ProtectedAlert => Rule::NotAllowed,
            Kind::ProtectedHandshake => Rule::NotAllowed,
            Kind::ProtectedData => Rule::NotAllowed,
        },
        State::Replied => match kind {
            Kind::ClearHello => Rule::GreetAgain,
            Kind::ClearChange => Rule::Change,
            Kind::ClearAlert => Rule::Hear,
            Kind::OtherClear => Rule::NotAllowed,
            Kind::ProtectedChange => Rule::NotAllowed,
            Kind::ProtectedAlert => Rule::NotAllowed,
            Kind::ProtectedHandshake => Rule::NotAllowed,
            Kind::ProtectedData => Rule::NotAllowed,
        },
        State::Spec => match kind {
            Kind::ClearHello => Rule::GreetAgain,
            Kind::ClearChange => Rule::NotAllowed,
            Kind::ClearAlert => Rule::Hear,
            Kind::OtherClear => Rule::NotAllowed,
            Kind::ProtectedChange => Rule::NotAllowed,
            Kind::ProtectedAlert => Rule::OpenRecord,
            Kind::ProtectedHandshake => Rule::OpenRecord,
            Kind::ProtectedData => Rule::NotAllowed,
        },
        State::Open => match kind {
            Kind::ClearHello => Rule::Resend,
            Kind::ClearChange => Rule::NotAllowed,
            Kind::ClearAlert => Rule::NotAllowed,
            Kind::OtherClear => Rule::NotAllowed,
            Kind::ProtectedChange => Rule::OpenRecord,
            Kind::ProtectedAlert => Rule::OpenRecord,
            Kind::ProtectedHandshake => Rule::OpenRecord,
            Kind::ProtectedData => Rule::OpenRecord,
        },
        State::Closed => Rule::Ended,
        State::Barred => Rule::Ended,
    }
}
