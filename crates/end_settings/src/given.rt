//! Several values, or the first fault.
ghost use Rattle.std.specs.Prelude.{◌≡◌, IfOk};
ghost use Rattle.mos_fields.specs.Faults.{AnswersFault, Fault};
ghost use Rattle.end_settings.specs.Given.{Gives, faultless as faultless_of, joined, joined3, made};

use crate::fault::SettingsFault;
use crate::key::Key;
use mos_fields::FieldFault;

/// Both values, where neither is a fault; else the first fault.
pub fn pair_given<A: Drop, B: Drop>(
    a: Result<A, SettingsFault>,
    b: Result<B, SettingsFault>,
) -> Result<(A, B), SettingsFault>
    ensures { result ≡ joined a b }
{
    match a {
        Ok(a) => match b {
            Ok(b) => Ok((a, b)),
            Err(fault) => Err(fault),
        },
        Err(fault) => Err(fault),
    }
}

/// All three values, where none is a fault; else the first fault.
pub fn triple_given<A: Drop, B: Drop, C: Drop>(
    a: Result<A, SettingsFault>,
    b: Result<B, SettingsFault>,
    c: Result<C, SettingsFault>,
) -> Result<(A, B, C), SettingsFault>
    ensures { result ≡ joined3 a b c }
{
    match pair_given(a, b) {
        Ok((a, b)) => match c {
            Ok(c) => Ok((a, b, c)),
            Err(fault) => Err(fault),
        },
        Err(fault) => Err(fault),
    }
}

/// A value that may be lacking, which isn't.
pub fn some_given<A: Drop>(a: Result<A, SettingsFault>) -> Result<Option<A>, SettingsFault>
    ensures { result ≡ made Some a }
{
    match a {
        Ok(a) => Ok(Some(a)),
        Err(fault) => Err(fault),
    }
}

/// What reading a text of a field's type gives at a key: `BadValue` where the text has a fault.
pub fn faultless<A: Drop>(key: Key, read: Result<A, FieldFault>) -> Result<A, SettingsFault>
    ensures { (fault : Fault) (x : A) → AnswersFault fault read → IfOk read (λ y. y ≡ x) → Gives (faultless_of key fault x) result }
{
    match read {
        Ok(value) => Ok(value),
        Err(FieldFault::NoMemory) => Err(SettingsFault::NoMemory),
        Err(_) => Err(SettingsFault::BadValue { key }),
    }
}
