// What a code point is to the joiner, and what two neighbours join to (document 01, 'Syllables').
ghost use Rattle.std.specs.Prelude.{◌≡◌};
ghost use Rattle.joining.specs.Roles.{role_of, joins};
ghost use Rattle.joining.specs.declared.role.Role.TheVariants.{Peak, Final};

#[derive(Clone, Copy, Debug, PartialEq, Eq)]
pub enum Role {
    Initial,
    Peak,
    Final,
    Lv,
    None,
}

// What a number is to the joiner. It asks for less than the sort says, so it decides by the ranges
// of what joins: plain text first, then the syllables, then the modern letters.
pub fn role_of(code: u32) -> Role
    ensures { result ≡ role_of code }
{
    match code {
        0..=0x10FF => Role::None,
        0xAC00..=0xD7A3 => if (code - 0xAC00) % 28 == 0 {
            Role::Lv
        } else {
            Role::None
        },
        _ => match code {
            0x1100..=0x1112 => Role::Initial,
            0x1161..=0x1175 => Role::Peak,
            0x11A8..=0x11C2 => Role::Final,
            _ => Role::None,
        },
    }
}

// What stands before a peak and the peak join to, if they join.
fn before_peak(first: u32, peak: u32) -> Option<u32>
    requires { role_of peak ≡ Peak }
    ensures { result ≡ joins first peak }
{
    match role_of(first) {
        Role::Initial => Some(0xAC00 + (first - 0x1100) * 588 + (peak - 0x1161) * 28),
        _ => None,
    }
}

// What stands before a final and the final join to, if they join.
fn before_final(first: u32, last: u32) -> Option<u32>
    requires { role_of last ≡ Final }
    ensures { result ≡ joins first last }
{
    match role_of(first) {
        Role::Lv => Some(first + (last - 0x11A7)),
        _ => None,
    }
}

// What two neighbours join to, if they join.
pub fn joined(first: u32, second: u32) -> Option<u32>
    ensures { result ≡ joins first second }
{
    match role_of(second) {
        Role::Peak => before_peak(first, second),
        Role::Final => before_final(first, second),
        _ => None,
    }
}
