/// Why a text is no script.
#[derive(Clone, Copy, Debug, PartialEq, Eq)]
pub enum ScriptFault {
    OutOfMemory,
    /// The line and the column of the first word that does not fit, both from 1, the column in bytes.
    Script(u64, u64),
}
