// A field of a layer file: a tag, a length and a value.
ghost use Rattle.std.specs.Prelude.{◌≡◌, ◌+◌, ◌≤◌, MatchOption, length};
ghost use Rattle.layer_fields.specs.Fields.{front_field, field_of, span};

// The value is lent by the file.
#[derive(Clone, Copy)]
pub struct Field<'a> {
    pub tag: u8,
    pub value: &'a [u8],
}

// The field that the bytes begin with, if it is there whole.
#[tactic(auto, unfolding(crate::specs::Fields::front_field))]
pub fn front_field(bytes: &[u8]) -> Option<Field<'_>>
    ensures { MatchOption result (front_field bytes.now ≡ None) (λ f. front_field bytes.now ≡ Some (field_of f)) }
{
    let [tag, high, low, rest @ ..] = bytes else {
        return None;
    };
    let len = usize::from(u16::from_be_bytes([*high, *low]));
    let value = rest.get(..len)?;
    Some(Field { tag: *tag, value })
}

impl Field<'_> {
    // How many bytes the field takes.
    pub fn span(&self) -> usize
        ensures { result ≡ span (field_of self.now) }
    {
        3 + self.value.len()
    }
}
