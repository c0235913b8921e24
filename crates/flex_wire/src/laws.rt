//! Laws of the spellings alone (protocol guide; KIP-482): no spelling of a field begins another,
//! and one spelling means one value. They do nothing when they are called.

ghost use Rattle.std.specs.Prelude.{FitsSigned, ⊤};
ghost use Rattle.std.specs.Int.{w16, w32, w64};
ghost use Rattle.flex_wire.specs.Laws.{BeginsNoOther};
ghost use Rattle.flex_wire.specs.Spelling.{int16, int32, int64, uuid, varint, compact_string, compact_nullable_string, nullable_string, array_count, nullable_array_count, mark, tagged_fields, FitsUuid, FitsVarint, FitsText, FitsNullableText, FitsCount, FitsNullableCount, FitsTaggedFields};

/// No spelling of an INT16 begins another.
pub fn int16_begins_no_other()
    ensures { BeginsNoOther (FitsSigned w16) int16 }
{}

/// No spelling of an INT32 begins another.
pub fn int32_begins_no_other()
    ensures { BeginsNoOther (FitsSigned w32) int32 }
{}

/// No spelling of an INT64 begins another.
pub fn int64_begins_no_other()
    ensures { BeginsNoOther (FitsSigned w64) int64 }
{}

/// No spelling of a UUID begins another.
pub fn uuid_begins_no_other()
    ensures { BeginsNoOther FitsUuid uuid }
{}

/// No spelling of an UNSIGNED_VARINT begins another.
pub fn varint_begins_no_other()
    ensures { BeginsNoOther FitsVarint varint }
{}

/// No spelling of a COMPACT_STRING begins another.
pub fn compact_string_begins_no_other()
    ensures { BeginsNoOther FitsText compact_string }
{}

/// No spelling of a COMPACT_NULLABLE_STRING begins another.
pub fn compact_nullable_string_begins_no_other()
    ensures { BeginsNoOther FitsNullableText compact_nullable_string }
{}

/// No spelling of a NULLABLE_STRING begins another.
pub fn nullable_string_begins_no_other()
    ensures { BeginsNoOther FitsNullableText nullable_string }
{}

/// No spelling of a COMPACT_ARRAY head begins another.
pub fn array_count_begins_no_other()
    ensures { BeginsNoOther FitsCount array_count }
{}

/// No spelling of a nullable COMPACT_ARRAY head begins another.
pub fn nullable_array_count_begins_no_other()
    ensures { BeginsNoOther FitsNullableCount nullable_array_count }
{}

/// No spelling of a mark of a nullable struct begins another.
pub fn mark_begins_no_other()
    ensures { BeginsNoOther (λ _. ⊤) mark }
{}

/// No spelling of a TAG_BUFFER begins another.
pub fn tagged_fields_begins_no_other()
    ensures { BeginsNoOther FitsTaggedFields tagged_fields }
{}
