ghost use Rattle.std.specs.Prelude.{◌<◌, ◌≤◌, ◌+◌, ◌*◌, ◌↔◌, IsTrue};
ghost use Rattle.agema_texts.specs.Masks.{size_limit};

// The greatest size that is masked.
const SIZE_LIMIT: usize = 65_536;

/// Whether so many operators are above the limit at an order.
pub(crate) fn exceeds(operators: usize, order: u32) -> bool
    requires { order ≤ 7 }
    ensures { IsTrue result ↔ (size_limit < operators * ((order + 1) * (order + 1))) }
{
    let shares = order as usize + 1;
    match operators.checked_mul(shares * shares) {
        Some(size) => size > SIZE_LIMIT,
        None => true,
    }
}
