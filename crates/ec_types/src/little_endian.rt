// Numbers in packets, image heads and stored records are little-endian.
ghost use Rattle.std.specs.Prelude.{◌≡◌, ◌<◌, ◌^◌, ◌++◌, List, ℕ, length};
ghost use Rattle.ec_types.specs.LittleEndian.{AreBytes, u16_bytes, u32_bytes, u16_at, u32_at};

/// Two or four bytes spell one number, and a number that fits them is read back, whatever follows it.
pub fn little_endian_round_trips()
    ensures bytes_2 { (bytes : List ℕ) → AreBytes bytes → length bytes ≡ 2 →
        u16_bytes (u16_at 0 bytes) ≡ bytes }
    ensures bytes_4 { (bytes : List ℕ) → AreBytes bytes → length bytes ≡ 4 →
        u32_bytes (u32_at 0 bytes) ≡ bytes }
    ensures number_2 { (n : ℕ) (rest : List ℕ) → n < 2 ^ 16 → u16_at 0 (u16_bytes n ++ rest) ≡ n }
    ensures number_4 { (n : ℕ) (rest : List ℕ) → n < 2 ^ 32 → u32_at 0 (u32_bytes n ++ rest) ≡ n }
{}
