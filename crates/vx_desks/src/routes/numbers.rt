//! The numbers that a client knows the links of several buses by.
ghost use Rattle.std.specs.Prelude.{◌≡◌, ◌≤◌, ◌↔◌, ℕ, IfSome, Some, None};
ghost use Rattle.vx_calls.specs.declared.limits.TheConstants.{LINK_LAST};
ghost use Rattle.vx_desks.specs.Numbers.{global_number, local_number};

/// The number, over all buses, of a link of a bus that has this number there: those of bus 0 are 1, 5, 9 and so on, those of bus 1
/// are 2, 6, 10.
pub fn global(bus: u8, lid: u32) -> u32
    requires bus { bus ≤ 3 }
    requires least { 1 ≤ lid }
    requires most { lid ≤ LINK_LAST }
    ensures { result ≡ global_number bus lid }
{
    4 * (lid - 1) + u32::from(bus) + 1
}

/// The bus of a link that has this number over all buses, and its number there. It is none at 0 alone.
pub fn local(lid: u32) -> Option<(u8, u32)>
    ensures value { result ≡ local_number lid }
    ensures none { (result ≡ None) ↔ (lid ≡ 0) }
    ensures bus { IfSome result (λ place. place.0 ≤ 3) }
    ensures back { (bus number : ℕ) → bus ≤ 3 → 1 ≤ number → lid ≡ global_number bus number → result ≡ Some (bus, number) }
{
    if lid == 0 {
        return None;
    }
    Some((((lid - 1) % 4) as u8, (lid - 1) / 4 + 1))
}
