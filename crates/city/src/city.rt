// CityHash64 v1.1 (google/cityhash, city.cc).
ghost use Rattle.std.specs.Prelude.{◌≡◌, ◌+◌, ◌<◌, ◌≤◌, length};
ghost use Rattle.city.specs.City.{k2, shift_mix, hash_len16_mul, hash_len16, mul_of, hash_bytes, hash_halves, hash_two, hash_four};
ghost use Rattle.city.specs.City.{len1to3, len4to7, len8to16, len0to16, mix4, len17to32};
ghost use Rattle.city.specs.City.{swap_mul, mix_u, mix_v, mix_y, mix_last, mix8, len33to64};
ghost use Rattle.city.specs.City.{weak32, weak_at, next_x, next_y, next_z, next_v, next_w, turn, start, finish, longer, city_hash64};

use super::word::{add, mul, rotate, swap64};
use base::number::{le32, le64};

const K0: u64 = 0xc3a5_c85c_97cb_3127;

const K1: u64 = 0xb492_b66f_be98_f273;

const K2: u64 = 0x9ae1_6a3b_2f90_404f;

const K_MUL: u64 = 0x9ddf_ea08_eb38_2d69;

pub fn shift_mix(x: u64) -> u64
    ensures { result ≡ shift_mix x }
{
    x ^ (x >> 47)
}

pub fn hash_len16_mul(u: u64, v: u64, m: u64) -> u64
    ensures { result ≡ hash_len16_mul u v m }
{
    let a = shift_mix(mul(u ^ v, m));
    let b = shift_mix(mul(v ^ a, m));
    mul(b, m)
}

pub fn hash_len16(u: u64, v: u64) -> u64
    ensures { result ≡ hash_len16 u v }
{
    hash_len16_mul(u, v, K_MUL)
}

fn mul_of(n: usize) -> u64
    ensures { result ≡ mul_of n }
{
    add(K2, mul(n as u64, 2))
}

// Kept: that a slice has as many bytes as its formula reads is a `requires`: most formulas are for a range of lengths, as 8 to 16, which no array type says.
// Those that read 64 are `first_state` and `one_turn`, which are public, and of which a `&[u8; 64]`, as `as_chunks::<64>` gives them, would ask more of a caller
// than a slice of at least 64, and `next_v` and `next_w`, which are handed that slice. The numbers that formulas take stay apart as CityHash64 has them.
// Kept: a function for each length: one over the width would be told how to read and how to mix, as `ends(s, 4, le32, hash_halves)`.

// The hash of n bytes, up to three, of the first, the middle and the last one.
pub fn hash_bytes(n: usize, a: u8, b: u8, c: u8) -> u64
    ensures { result ≡ hash_bytes n a b c }
{
    let y = u64::from(a) + (u64::from(b) << 8);
    let z = add(n as u64, u64::from(c) << 2);
    mul(shift_mix(mul(y, K2) ^ mul(z, K0)), K2)
}

fn hash_len1to3(s: &[u8]) -> u64
    requires { 0 < length s.now }
    ensures { result ≡ len1to3 s.now }
{
    let n = s.len();
    hash_bytes(n, s[0], s[n >> 1], s[n - 1])
}

// The hash of n bytes, 4 to 7, of the first and the last four.
pub fn hash_halves(n: usize, a: u32, b: u32) -> u64
    ensures { result ≡ hash_halves n a b }
{
    hash_len16_mul(add(n as u64, u64::from(a) << 3), u64::from(b), mul_of(n))
}

fn hash_len4to7(s: &[u8]) -> u64
    requires { 4 ≤ length s.now }
    ensures { result ≡ len4to7 s.now }
{
    let n = s.len();
    hash_halves(n, le32(s, 0), le32(s, n - 4))
}

// The hash of n bytes, 8 to 16, of the first and the last eight.
pub fn hash_two(n: usize, first: u64, b: u64) -> u64
    ensures { result ≡ hash_two n first b }
{
    let m = mul_of(n);
    let a = add(first, K2);
    let c = add(mul(rotate(b, 37), m), a);
    let d = mul(add(rotate(a, 25), b), m);
    hash_len16_mul(c, d, m)
}

fn hash_len8to16(s: &[u8]) -> u64
    requires { 8 ≤ length s.now }
    ensures { result ≡ len8to16 s.now }
{
    let n = s.len();
    hash_two(n, le64(s, 0), le64(s, n - 8))
}

// The hash of no bytes.
pub fn hash_len0() -> u64
    ensures { result ≡ k2 }
{
    K2
}

fn hash_len0to16(s: &[u8]) -> u64
    requires { length s.now ≤ 16 }
    ensures { result ≡ len0to16 s.now }
{
    let n = s.len();
    if 8 <= n {
        return hash_len8to16(s);
    }
    if 4 <= n {
        return hash_len4to7(s);
    }
    if 0 < n {
        return hash_len1to3(s);
    }
    hash_len0()
}

fn mix_four(a: u64, b: u64, c: u64, d: u64, m: u64) -> u64
    ensures { result ≡ mix4 a b c d m }
{
    let u = add(add(rotate(add(a, b), 43), rotate(c, 30)), d);
    let v = add(add(a, rotate(add(b, K2), 18)), c);
    hash_len16_mul(u, v, m)
}

// The hash of n bytes, 17 to 32, of the first and the second eight, the last eight and those before them.
pub fn hash_four(n: usize, a: u64, b: u64, c: u64, d: u64) -> u64
    ensures { result ≡ hash_four n a b c d }
{
    let m = mul_of(n);
    mix_four(mul(a, K1), b, mul(c, m), mul(d, K2), m)
}

fn hash_len17to32(s: &[u8]) -> u64
    requires { 16 ≤ length s.now }
    ensures { result ≡ len17to32 s.now }
{
    let n = s.len();
    hash_four(n, le64(s, 0), le64(s, 8), le64(s, n - 8), le64(s, n - 16))
}

fn swap_mul(x: u64, m: u64) -> u64
    ensures { result ≡ swap_mul x m }
{
    swap64(mul(x, m))
}

// The eight words that are read of 33 to 64 bytes, some of them multiplied, and the multiplier of their number.
#[derive(Clone, Copy)]
struct EightWords {
    a: u64,
    b: u64,
    c: u64,
    d: u64,
    e: u64,
    f: u64,
    g: u64,
    h: u64,
    m: u64,
}

impl EightWords {
    fn mix_u(self) -> u64
        ensures { result ≡ mix_u self.a self.b self.c self.g }
    {
        add(
            rotate(add(self.a, self.g), 43),
            mul(add(rotate(self.b, 30), self.c), 9),
        )
    }

    fn mix_v(self) -> u64
        ensures { result ≡ mix_v self.a self.d self.f self.g }
    {
        add(add(add(self.a, self.g) ^ self.d, self.f), 1)
    }

    fn mix_y(self, u: u64, v: u64) -> u64
        ensures { result ≡ mix_y u v self.g self.h self.m }
    {
        let w = add(swap_mul(add(u, v), self.m), self.h);
        mul(add(swap_mul(add(v, w), self.m), self.g), self.m)
    }

    fn mix_last(self, x: u64, y: u64, z: u64) -> u64
        ensures { result ≡ mix_last x y z self.b self.d self.h self.m }
    {
        let a = add(swap64(add(mul(add(x, z), self.m), y)), self.b);
        add(
            mul(
                shift_mix(add(add(mul(add(z, a), self.m), self.d), self.h)),
                self.m,
            ),
            x,
        )
    }

    fn mix_eight(self) -> u64
        ensures { result ≡ mix8 self.a self.b self.c self.d self.e self.f self.g self.h self.m }
    {
        let x = add(rotate(add(self.e, self.f), 42), self.c);
        let y = self.mix_y(self.mix_u(), self.mix_v());
        let z = add(add(self.e, self.f), self.c);
        self.mix_last(x, y, z)
    }
}

fn hash_len33to64(s: &[u8]) -> u64
    requires { 32 ≤ length s.now }
    ensures { result ≡ len33to64 s.now }
{
    let n = s.len();
    let m = mul_of(n);
    let words = EightWords {
        a: mul(le64(s, 0), K2),
        b: le64(s, 8),
        c: le64(s, n - 24),
        d: le64(s, n - 32),
        e: mul(le64(s, 16), K2),
        f: mul(le64(s, 24), 9),
        g: le64(s, n - 8),
        h: mul(le64(s, n - 16), m),
        m,
    };
    words.mix_eight()
}

#[derive(Clone, Copy)]
pub struct Pair {
    pub first: u64,
    pub second: u64,
}

// What a turn over 64 bytes takes and gives.
#[derive(Clone, Copy)]
pub struct State {
    pub x: u64,
    pub y: u64,
    pub z: u64,
    pub v: Pair,
    pub w: Pair,
}

fn weak_hash_len32_with_seeds(w: u64, x: u64, y: u64, z: u64, a: u64, b: u64) -> Pair
    ensures { result ≡ weak32 w x y z a b }
{
    let a1 = add(a, w);
    let b1 = rotate(add(add(b, a1), z), 21);
    let a2 = add(add(a1, x), y);
    let b2 = add(b1, rotate(a2, 44));
    Pair {
        first: add(a2, z),
        second: add(b2, a1),
    }
}

fn weak_at(s: &[u8], i: usize, a: u64, b: u64) -> Pair
    requires { i + 32 ≤ length s.now }
    ensures { result ≡ weak_at s.now i a b }
{
    let f0 = le64(s, i);
    let f1 = le64(s, i + 8);
    let f2 = le64(s, i + 16);
    let f3 = le64(s, i + 24);
    weak_hash_len32_with_seeds(f0, f1, f2, f3, a, b)
}

impl State {
    fn next_x(self, f: u64) -> u64
        ensures { result ≡ next_x self.x self.y self.v.first self.w.second f }
    {
        mul(
            rotate(add(add(add(self.x, self.y), self.v.first), f), 37),
            K1,
        ) ^ self.w.second
    }

    fn next_y(self, f: u64, g: u64) -> u64
        ensures { result ≡ next_y self.y self.v.first self.v.second f g }
    {
        add(
            mul(rotate(add(add(self.y, self.v.second), f), 42), K1),
            add(self.v.first, g),
        )
    }

    fn next_z(self) -> u64
        ensures { result ≡ next_z self.z self.w.first }
    {
        mul(rotate(add(self.z, self.w.first), 33), K1)
    }

    fn next_v(self, s: &[u8], x: u64) -> Pair
        requires { 64 ≤ length s.now }
        ensures { result ≡ next_v s.now self.v.second x self.w.first }
    {
        weak_at(s, 0, mul(self.v.second, K1), add(x, self.w.first))
    }

    fn next_w(self, s: &[u8], y: u64, z: u64) -> Pair
        requires { 64 ≤ length s.now }
        ensures { result ≡ next_w s.now z self.w.second y }
    {
        weak_at(s, 32, add(z, self.w.second), add(y, le64(s, 16)))
    }

    // The state before the first turn over a text of n bytes, of its last 64 bytes and its first word.
    pub fn first_state(n: u64, last: &[u8], first: u64) -> State
        requires { 64 ≤ length last.now }
        ensures { result ≡ start n last.now first }
    {
        let x = le64(last, 24);
        let y = add(le64(last, 48), le64(last, 8));
        let z = hash_len16(add(le64(last, 16), n), le64(last, 40));
        let v = weak_at(last, 0, n, z);
        let w = weak_at(last, 32, add(y, K1), x);
        State {
            x: add(mul(x, K1), first),
            y,
            z,
            v,
            w,
        }
    }

    // One turn, over the first 64 bytes of s.
    pub fn one_turn(self, s: &[u8]) -> State
        requires { 64 ≤ length s.now }
        ensures { result ≡ turn s.now self }
    {
        let x = self.next_x(le64(s, 8));
        let y = self.next_y(le64(s, 48), le64(s, 40));
        let z = self.next_z();
        let v = self.next_v(s, x);
        let w = self.next_w(s, y, z);
        State {
            x: z,
            y,
            z: x,
            v,
            w,
        }
    }

    // The hash of the state after the last turn.
    pub fn last_mix(self) -> u64
        ensures { result ≡ finish self }
    {
        let a = add(
            add(
                hash_len16(self.v.first, self.w.first),
                mul(shift_mix(self.y), K1),
            ),
            self.z,
        );
        let b = add(hash_len16(self.v.second, self.w.second), self.x);
        hash_len16(a, b)
    }
}

// CityHash64 of more than 64 bytes: a state of the first word and the last 64 bytes, and a turn over each chunk of all but the last byte.
fn hash_longer(s: &[u8]) -> u64
    requires { 64 < length s.now }
    ensures { result ≡ longer s.now }
{
    let n = s.len();
    let mut t = State::first_state(n as u64, &s[n - 64..], le64(s, 0));
    for chunk in s[..n - 1].chunks_exact(64) {
        t = t.one_turn(chunk);
    }
    t.last_mix()
}

// CityHash64 of up to 32 bytes: apart from the longer branches, which have registers to save.
pub fn hash_len0to32(s: &[u8]) -> u64
    requires { length s.now ≤ 32 }
    ensures { result ≡ city_hash64 s.now }
{
    if s.len() <= 16 {
        return hash_len0to16(s);
    }
    hash_len17to32(s)
}

// CityHash64 of more than 32 bytes.
pub fn hash_len33up(s: &[u8]) -> u64
    requires { 32 < length s.now }
    ensures { result ≡ city_hash64 s.now }
{
    if s.len() <= 64 {
        return hash_len33to64(s);
    }
    hash_longer(s)
}

// CityHash64 of the bytes of s.
pub fn city_hash64(s: &[u8]) -> u64
    ensures { result ≡ city_hash64 s.now }
{
    if s.len() <= 32 {
        return hash_len0to32(s);
    }
    hash_len33up(s)
}
