// Alerts (002 10.2): level, description, checksum.
ghost use Rattle.std.specs.Prelude.{◌≡◌};
ghost use Rattle.message.specs.Alert.{level_number, level_of, description_number, sorted_of, alert_of, alert_bytes};

#[derive(Clone, Copy)]
pub enum Level {
    Warning,
    Critical,
    Fatal,
}

#[derive(Clone, Copy)]
pub enum Description {
    ConnectionCloseNotify,
    SessionCloseNotify,
    NoConnection,
    UnexpectedMessage,
    TimeRequired,
    BadRecordMac,
    DecryptionFailed,
    RecordOverflow,
    DecompressionFailure,
    HandshakeFailure,
    BadCertificate,
    UnsupportedCertificate,
    CertificateRevoked,
    CertificateExpired,
    CertificateUnknown,
    IllegalParameter,
    UnknownCa,
    AccessDenied,
    DecodeError,
    DecryptError,
    UnknownKeyId,
    DisabledKeyId,
    KeyExchangeDisabled,
    SessionNotReady,
    UnknownParameterIndex,
    DuplicateFinishedReceived,
    ExportRestriction,
    ProtocolVersion,
    InsufficientSecurity,
    InternalError,
    UserCanceled,
    NoRenegotiation,
}

#[derive(Clone, Copy)]
pub struct Alert {
    pub level: Level,
    pub description: Description,
    pub checksum: u32,
}

// Reads an alert: exactly six bytes, with an assigned level and an assigned description.
#[tactic(auto, unfolding(crate::specs::Alert::alert_of))]
pub fn read(s: &[u8]) -> Option<Alert>
    ensures { result ≡ alert_of s.now }
{
    if s.len() != 6 {
        return None;
    }
    let level = grade(s[0])?;
    let description = sort(s[1])?;
    let checksum = u32::from_be_bytes([s[2], s[3], s[4], s[5]]);
    Some(Alert {
        level,
        description,
        checksum,
    })
}

// The bytes of an alert.
pub fn write(level: Level, description: Description, checksum: u32) -> [u8; 6]
    ensures { result ≡ alert_bytes level description checksum }
{
    let [a, b, c, d] = checksum.to_be_bytes();
    [
        level_number(level),
        description_number(description),
        a,
        b,
        c,
        d,
    ]
}

// The level that a byte names.
#[tactic(auto, unfolding(crate::specs::Alert::level_of))]
pub fn grade(b: u8) -> Option<Level>
    ensures { result ≡ level_of b }
{
    match b {
        1 => Some(Level::Warning),
        2 => Some(Level::Critical),
        3 => Some(Level::Fatal),
        _ => None,
    }
}

// The number of a level.
pub fn level_number(level: Level) -> u8
    ensures { result ≡ level_number level }
{
    match level {
        Level::Warning => 1,
        Level::Critical => 2,
        Level::Fatal => 3,
    }
}

// The description that a byte names, by the list of 10.2; the numbers between are unassigned.
#[tactic(auto, unfolding(crate::specs::Alert::sorted_of, crate::specs::Alert::among))]
pub fn sort(b: u8) -> Option<Description>
    ensures { result ≡ sorted_of b }
{
    match b {
        0 => Some(Description::ConnectionCloseNotify),
        1 => Some(Description::SessionCloseNotify),
        2..=4 => None,
        5 => Some(Description::NoConnection),
        6..=9 => None,
        10 => Some(Description::UnexpectedMessage),
        11 => Some(Description::TimeRequired),
        12..=19 => None,
        20 => Some(Description::BadRecordMac),
        21 => Some(Description::DecryptionFailed),
        22 => Some(Description::RecordOverflow),
        23..=29 => None,
        30 => Some(Description::DecompressionFailure),
        31..=39 => None,
        40 => Some(Description::HandshakeFailure),
        41 => None,
        42 => Some(Description::BadCertificate),
        43 => Some(Description::UnsupportedCertificate),
        44 => Some(Description::CertificateRevoked),
        45 => Some(Description::CertificateExpired),
        46 => Some(Description::CertificateUnknown),
        47 => Some(Description::IllegalParameter),
        48 => Some(Description::UnknownCa),
        49 => Some(Description::AccessDenied),
        50 => Some(Description::DecodeError),
        51 => Some(Description::DecryptError),
        52 => Some(Description::UnknownKeyId),
        53 => Some(Description::DisabledKeyId),
        54 => Some(Description::KeyExchangeDisabled),
        55 => Some(Description::SessionNotReady),
        56 => Some(Description::UnknownParameterIndex),
        57 => Some(Description::DuplicateFinishedReceived),
        58..=59 => None,
        60 => Some(Description::ExportRestriction),
        61..=69 => None,
        70 => Some(Description::ProtocolVersion),
        71 => Some(Description::InsufficientSecurity),
        72..=79 => None,
        80 => Some(Description::InternalError),
        81..=89 => None,
        90 => Some(Description::UserCanceled),
        91..=99 => None,
        100 => Some(Description::NoRenegotiation),
        101..=255 => None,
    }
}

// The number of a description.
pub fn description_number(description: Description) -> u8
    ensures { result ≡ description_number description }
{
    match description {
        Description::ConnectionCloseNotify => 0,
        Description::SessionCloseNotify => 1,
        Description::NoConnection => 5,
        Description::UnexpectedMessage => 10,
        Description::TimeRequired => 11,
        Description::BadRecordMac => 20,
        Description::DecryptionFailed => 21,
        Description::RecordOverflow => 22,
        Description::DecompressionFailure => 30,
        Description::HandshakeFailure => 40,
        Description::BadCertificate => 42,
        Description::UnsupportedCertificate => 43,
        Description::CertificateRevoked => 44,
        Description::CertificateExpired => 45,
        Description::CertificateUnknown => 46,
        Description::IllegalParameter => 47,
        Description::UnknownCa => 48,
        Description::AccessDenied => 49,
        Description::DecodeError => 50,
        Description::DecryptError => 51,
        Description::UnknownKeyId => 52,
        Description::DisabledKeyId => 53,
        Description::KeyExchangeDisabled => 54,
        Description::SessionNotReady => 55,
        Description::UnknownParameterIndex => 56,
        Description::DuplicateFinishedReceived => 57,
        Description::ExportRestriction => 60,
        Description::ProtocolVersion => 70,
        Description::InsufficientSecurity => 71,
        Description::InternalError => 80,
        Description::UserCanceled => 90,
        Description::NoRenegotiation => 100,
    }
}
