ghost use Rattle.std.specs.Prelude.{◌≡◌, true, false, IfSome, IfNone};
ghost use Rattle.exi_names.specs.Characters.{is_xml_char};

/// Whether a character may stand in an XML 1.0 document: tab, line feed, carriage return, and all from
/// U+0020 on but U+FFFE and U+FFFF (XML 1.0, section 2.2).
#[tactic(auto, unfolding(crate::specs::Characters::is_xml_char))]
pub fn is_xml(c: char) -> bool
    ensures { result ≡ is_xml_char c }
{
    is_xml_code(c as u32)
}

/// The XML 1.0 character with this code point, and `None` where there is none (XML 1.0, section 2.2).
#[tactic(auto, unfolding(crate::specs::Characters::is_xml_char))]
pub fn xml_char(code: u128) -> Option<char>
    ensures some { IfSome result (λ c. (c ≡ code) × (is_xml_char code ≡ true)) }
    ensures none { IfNone result (is_xml_char code ≡ false) }
{
    if code > 0x10_FFFF || !is_xml_code(code as u32) {
        return None;
    }
    char::from_u32(code as u32)
}

#[tactic(auto, unfolding(crate::specs::Characters::is_xml_char))]
fn is_xml_code(code: u32) -> bool
    ensures { result ≡ is_xml_char code }
{
    matches!(code, 0x9..=0xA | 0xD | 0x20..=0xD7FF | 0xE000..=0xFFFD | 0x1_0000..=0x10_FFFF)
}
