// The letters of the list's lines, each by the entry that it asks, or by what it sets. oracle/README.md has the list's form.

// ---- lines that set what later ones use

pub(crate) const SOURCE: u8 = b'B';

pub(crate) const MORE_SOURCE: u8 = b'A';

pub(crate) const TABLE: u8 = b'T';

pub(crate) const MORE_TABLE: u8 = b'U';

// ---- cases: a small letter's answer has the words that were lent, a capital's their sum

pub(crate) const DECODE_VARINT: u8 = b'v';

pub(crate) const DECODE_VARINT_CAPPED: u8 = b'c';

pub(crate) const ENCODED_LEN_VARINT: u8 = b'n';

pub(crate) const TO_UNSIGNED: u8 = b'z';

pub(crate) const TO_SIGNED: u8 = b'y';

pub(crate) const KEY_LEN: u8 = b'j';

pub(crate) const DECODE_KEY: u8 = b'k';

pub(crate) const DECODE_VALUE: u8 = b'd';

pub(crate) const SKIP_FIELD: u8 = b's';

pub(crate) const STEP_AT: u8 = b'f';

pub(crate) const ENCODE_VARINT: u8 = b'e';

pub(crate) const PREPEND_VARINT: u8 = b'p';

pub(crate) const ENCODE_KEY: u8 = b'g';

pub(crate) const PREPEND_KEY: u8 = b'h';

pub(crate) const READ_MESSAGE: u8 = b'm';

pub(crate) const READ_MESSAGE_SUM: u8 = b'M';

pub(crate) const READ_PAYLOAD: u8 = b'r';

pub(crate) const ENCODE_MESSAGE: u8 = b'w';

pub(crate) const PREPEND_MESSAGE: u8 = b'q';

pub(crate) const ENCODE_MESSAGE_SUM: u8 = b'W';

pub(crate) const PREPEND_MESSAGE_SUM: u8 = b'Q';

pub(crate) const ENCODE_NO_BUFFER: u8 = b'l';

pub(crate) const INSERT: u8 = b'i';

pub(crate) const PAYLOAD_OF: u8 = b'o';

pub(crate) const PICK: u8 = b'x';
