// Tests said in numbers, 1 for yes and 0 for no, and not as `bool`: what is made of them by sums and maxima has no branch, so that the compiler looks at
// many places in one step. They stay with `if`: with `u8::from` of the test the check of characters of two bytes takes up to 1.2 times as long (b).
ghost use Rattle.std.specs.Prelude.{◌≡◌, ◌/◌};
ghost use Rattle.utf8.specs.Windows.{alike, less};

// 1 where x is below y.
pub fn below(x: u8, y: u8) -> u8
    ensures { result ≡ less x y }
{
    if x < y { 1 } else { 0 }
}

// 1 for a byte from 0x80 up to 0xBF, which goes on with a character.
pub fn goes_on(b: u8) -> u8
    ensures { result ≡ alike (b / 0x40) 2 }
{
    if b / 0x40 == 2 { 1 } else { 0 }
}
