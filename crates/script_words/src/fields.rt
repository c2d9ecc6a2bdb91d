ghost use Rattle.std.specs.Prelude.{◌≡◌, ◌≤◌, length, option_copied, option_map};
ghost use Rattle.script_words.specs.{fields, first_and_rest, is_space, just_one, just_three, just_two, position_or_len, without_spaces};

/// The first field of the text, and the text after it; `None` if the text has no field.
#[tactic(auto, using(crate::proofs::FieldSteps::next_none, crate::proofs::FieldSteps::next_some))]
pub fn next_field(text: &[u8]) -> Option<(&[u8], &[u8])>
    ensures { option_map (λ found. (found.0.now, fields found.1.now)) result ≡ first_and_rest (fields text.now) }
{
    let text = without_spaces(text);
    if text.is_empty() {
        return None;
    }
    Some(text.split_at(field_len(text)))
}

/// The text from its first byte that is no space.
#[tactic(auto, unfolding(crate::specs::Fields::without_spaces))]
pub fn without_spaces(text: &[u8]) -> &[u8]
    ensures is { result.now ≡ without_spaces text.now }
    ensures within { length result.now ≤ length text.now }
{
    let mut rest = text;
    while let [b' ', others @ ..] = rest {
        rest = others;
    }
    rest
}

/// How many bytes are before the first space.
#[tactic(auto, using(crate::proofs::FieldSteps::first_space))]
pub fn field_len(text: &[u8]) -> usize
    ensures value { result ≡ position_or_len is_space text.now }
    ensures within { result ≤ length text.now }
{
    for (index, byte) in text.iter().enumerate() {
        if *byte == b' ' {
            return index;
        }
    }
    text.len()
}

/// The field of a text with just one; `None` if there are none or more.
#[tactic(auto, using(crate::proofs::FieldCounts::just_one_by_steps))]
pub fn just_one(text: &[u8]) -> Option<&[u8]>
    ensures { option_copied result ≡ just_one (fields text.now) }
{
    let (field, rest) = next_field(text)?;
    match next_field(rest) {
        Some(_) => None,
        None => Some(field),
    }
}

/// The fields of a text with just two; `None` if there are less or more.
#[tactic(auto, using(crate::proofs::FieldCounts::just_two_by_steps))]
pub fn just_two(text: &[u8]) -> Option<(&[u8], &[u8])>
    ensures { option_map (λ found. (found.0.now, found.1.now)) result ≡ just_two (fields text.now) }
{
    let (first, rest) = next_field(text)?;
    let second = just_one(rest)?;
    Some((first, second))
}

/// The fields of a text with just three; `None` if there are less or more.
#[tactic(auto, using(crate::proofs::FieldCounts::just_three_by_steps))]
pub fn just_three(text: &[u8]) -> Option<(&[u8], &[u8], &[u8])>
    ensures { option_map (λ found. (found.0.now, found.1.now, found.2.now)) result ≡ just_three (fields text.now) }
{
    let (first, rest) = next_field(text)?;
    let (second, third) = just_two(rest)?;
    Some((first, second, third))
}
