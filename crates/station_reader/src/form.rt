//! What a row of the table of keys says: a key, what its value has to be, and what the key stands for where it is not there.

// What a value has to be.
#[derive(Clone, Copy)]
pub enum Form {
    // A whole number, from the first number to the second.
    Whole(u64, u64),
    // A text that is not empty.
    Text,
    // A text of 1 to 32 visible characters of ASCII.
    Secret,
    // The word of a code plan.
    Plan,
    // An IPv4 address.
    Address,
    // A net as CIDR writes it (RFC 4632).
    Net,
    // An array of tables.
    Tables,
}

// What a key that is not there stands for: nothing, since it is required; a number; or no text and no tables.
#[derive(Clone, Copy)]
pub enum Need {
    Required,
    Preset(u64),
    Optional,
}

// A row of the table of keys.
#[derive(Clone, Copy)]
pub struct Row {
    pub key: &'static str,
    pub form: Form,
    pub need: Need,
}
