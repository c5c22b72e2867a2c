// The face: every entry that a caller has, and every answer, by one name. Each stands with its contract in the crate that it is taken from.
#![tactic(auto)]

// ---- answers
pub use entry_answer::{
    Indexed, KeyLength, KeyRead, More, Picked, Put, RunCount, RunValue, Several, Skipped, Step,
    Supplier, ValueRead, VarintRead,
};
pub use entry_copy::Copied;
pub use entry_reader::{Counted, Reader};
pub use sounding::{Head, Sounding};
pub use sounding_grade::Grade;
pub use sounding_graded::Graded;
pub use wire::{
    Early, Fault, Field, Inserted, Key, NewRecord, Read, Record, Refusal, Value, WireType, Written,
    number_of,
};

// ---- varints
pub use entry_varint::{decode_varint, decode_varint_capped, encode_varint, prepend_varint};
pub use varint_signed::{i64_to_unsigned, u64_to_signed};
pub use varint_write::encoded_len_varint;

// ---- keys
pub use entry_key::{decode_key, encode_key, key_len, prepend_key};
pub use field_key::{wire_number, wire_type_of};

// ---- values and single fields
pub use entry_field::{decode_value, more_at, skip_field, step_at};

// ---- whole messages
pub use entry_message::{payload_of, pick, pick_at, pick_early, read_message, read_payload};

// ---- a reader that is held, and what goes through one
pub use entry_reader::{count_fields, has_more, make, step_through, take_step};

// ---- tables written
pub use entry_copy::copy_message;
pub use entry_write::{encode_message, insert, prepend_message};

// ---- an index beside a stored message
pub use index::INDEX_WORDS;
pub use index_line::{read_line, write_line};
pub use index_make::{index_fits, make_index};
pub use index_pick::pick_indexed;

// ---- soundings
pub use sounding::{LEVEL_WORDS, read_sounding};
pub use sounding_graded::{GRADED_WORDS, read_graded};

// ---- packed runs
pub use run_read::{read_run, run_count, run_value};
pub use run_write::write_run;

// ---- corrections over an original
pub use correct_supply::{corrected_by, corrected_part};
pub use correct_write::write_corrected;

// ---- a working copy
pub use edit::{insert_payload, remove_record, replace_payload};
