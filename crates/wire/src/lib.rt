// Runs of numbers as bytes, most significant first. A number's byte that counts 256 ^ weight is its byte of that weight.
#![tactic(auto)]

ghost use Rattle.std.specs.Prelude.{◌≡◌, ℕ, ◌+◌, ◌*◌, ◌≤◌, List, length, map};
ghost use Rattle.std.proofs.Common.{sym};
ghost use Rattle.std.proofs.lemmas.List.{map-id};
ghost use Rattle.wire.specs.Wire.{AreBytes, bytes_of, decoded, element_at, encoded, number_at, with_element};

// A number of a size of its own.
pub trait Number: Copy {
    // How many bytes it has.
    ghost SIZE: { ℕ };

    const SIZE: usize;

    // What it counts, and what the numbers of a run count.
    ghost value: { Self → ℕ };

    ghost values: { List Self → List ℕ };

    // The number of these bytes.
    fn from_bytes(bytes: &[u8]) -> Self
        requires { length bytes.now ≡ SIZE }
        ensures { value result ≡ number_at SIZE bytes.now 0 };

    // Writes its bytes.
    fn put(self, bytes: &mut [u8])
        requires { length bytes.old ≡ SIZE }
        ensures { bytes.new ≡ bytes_of SIZE (value self) };

    // A run counts what each of its numbers does.
    ghost each: { (xs : List Self) → values xs ≡ map value xs };
}

impl Number for u32 {
    ghost SIZE = { 4 };

    const SIZE: usize = 4;

    ghost value = { λ x. x };

    ghost values = { λ xs. xs };

    ghost each = { λ xs. sym (map-id xs) };

    fn from_bytes(bytes: &[u8]) -> u32 {
        let b = [bytes[0], bytes[1], bytes[2], bytes[3]];
        u32::from_be_bytes(b)
    }

    fn put(self, bytes: &mut [u8]) {
        bytes.copy_from_slice(&u32::to_be_bytes(self));
    }
}

impl Number for u64 {
    ghost SIZE = { 8 };

    const SIZE: usize = 8;

    ghost value = { λ x. x };

    ghost values = { λ xs. xs };

    ghost each = { λ xs. sym (map-id xs) };

    fn from_bytes(bytes: &[u8]) -> u64 {
        let b = [
            bytes[0], bytes[1], bytes[2], bytes[3], bytes[4], bytes[5], bytes[6], bytes[7],
        ];
        u64::from_be_bytes(b)
    }

    fn put(self, bytes: &mut [u8]) {
        bytes.copy_from_slice(&u64::to_be_bytes(self));
    }
}

// The number of an index in a run.
pub fn read<N: Number>(bytes: &[u8], index: usize) -> N
    requires { N.SIZE * index + N.SIZE ≤ length bytes.now }
    ensures number { N.value result ≡ element_at N.SIZE bytes.now index }
    ensures bytes { AreBytes bytes.now }
{
    let from = N::SIZE * index;
    let to = from + N::SIZE;
    N::from_bytes(&bytes[from..to])
}

// Writes the number of an index in a run.
pub fn write<N: Number>(bytes: &mut [u8], index: usize, x: N)
    requires { N.SIZE * index + N.SIZE ≤ length bytes.old }
    ensures { bytes.new ≡ with_element N.SIZE bytes.old index (N.value x) }
{
    let from = N::SIZE * index;
    let to = from + N::SIZE;
    x.put(&mut bytes[from..to]);
}

// Fills the numbers from the front of the bytes.
pub fn decode<N: Number>(bytes: &[u8], numbers: &mut [N])
    requires { N.SIZE * length numbers.old ≤ length bytes.now }
    ensures { N.values numbers.new ≡ decoded N.SIZE bytes.now (length numbers.old) }
{
    for (i, x) in numbers.iter_mut().enumerate() {
        *x = read(bytes, i);
    }
}

// Writes the numbers' bytes.
pub fn encode<N: Number>(numbers: &[N], bytes: &mut [u8])
    requires { length bytes.old ≡ N.SIZE * length numbers.now }
    ensures { bytes.new ≡ encoded N.SIZE (N.values numbers.now) }
{
    for (i, x) in numbers.iter().enumerate() {
        write(bytes, i, *x);
    }
}
