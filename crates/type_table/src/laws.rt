// Where the words of fields are, whatever the kinds of a type are.

ghost use Rattle.type_table.specs.FieldLaw.{FieldsStandApart};

/// The offsets that are told of a kind are those at which its fields begin; each word has the kind
/// of its field, and belongs to no other field. Whoever calls this has the law.
pub fn fields_stand_apart()
    ensures { FieldsStandApart }
{}
