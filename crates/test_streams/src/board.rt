//! The board that the tests share.

/// An endpoint next to a bridge, two endpoints behind the bridge, and two guests.
pub(crate) const MAIN: &str = "[host]
io = [0x1000, 0xffff]
mem = [0xc0000000, 0xdfffffff]
pref = [0x400000000, 0x4ffffffff]

[[endpoint]]
at = \"1.0\"
vendor = 0x1234
device = 0x0001
class = 0xff0000
status = 0x8000
pin = 1
bar = [
  { index = 0, kind = \"io\", size = 32 },
  { index = 1, kind = \"mem32\", size = 4096, block = 64, rw = \"ff\" },
]

[[bridge]]
at = \"2.0\"
vendor = 0x1234
device = 0x0002
io = \"16\"
pref = \"64\"

[[endpoint]]
at = \"2.0/0.0\"
vendor = 0x1234
device = 0x0003
class = 0xff0000
bar = [
  { index = 0, kind = \"mem32\", size = 0x100000 },
  { index = 1, kind = \"io\", size = 8 },
]

[[endpoint]]
at = \"2.0/1.0\"
vendor = 0x1234
device = 0x0004
class = 0xff0000
pin = 1
bar = [ { index = 0, kind = \"mem64p\", size = 0x1000000, block = 16, reset = \"a5\" } ]

[[guest]]
name = \"a\"
slots = [\"1.0\", \"2.0/1.0\"]

[[guest]]
name = \"b\"
slots = [\"2.0/0.0\"]
";
