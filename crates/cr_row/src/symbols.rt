//! How bells and places are written: 1 to 9, 0 for 10, E, T, A, B, C and D.

ghost use Rattle.std.specs.Prelude.{◌≡◌, ℕ, ◌≤◌, IfSome, IsNone};
ghost use Rattle.cr_row.specs.Symbols.{symbol_of};

const SYMBOLS: [u8; 16] = *b"1234567890ETABCD";

/// The byte that a bell or a place, from 1 to 16, is written as.
pub fn symbol(bell: u8) -> u8
    requires from { 1 ≤ bell }
    requires to { bell ≤ 16 }
    ensures { result ≡ symbol_of bell }
{
    SYMBOLS[usize::from(bell - 1)]
}

/// The bell or place that a byte stands for. None exactly for a byte that is no symbol.
pub fn bell_of(symbol: u8) -> Option<u8>
    ensures is { IfSome result (λ b. (1 ≤ b) × (b ≤ 16) × (symbol_of b ≡ symbol)) }
    ensures none { IsNone result → (b : ℕ) → 1 ≤ b → b ≤ 16 → symbol_of b ≡ symbol → ⊥ }
{
    for (index, known) in SYMBOLS.iter().enumerate() {
        if *known == symbol {
            return Some(index as u8 + 1);
        }
    }
    None
}
