// The types of number that a field can have, and what a refusal says is wanted of it. The texts are written out: no
// constant makes a text of a type's bounds, and a type that holds the two bounds for printing is longer.
use std::str::FromStr;

pub trait Number: FromStr {
    const WANTED: &'static str;
}

impl Number for u16 {
    const WANTED: &'static str = "a whole number from 0 to 65535";
}

impl Number for u32 {
    const WANTED: &'static str = "a whole number from 0 to 4294967295";
}

impl Number for u64 {
    const WANTED: &'static str = "a whole number from 0 to 18446744073709551615";
}

impl Number for usize {
    const WANTED: &'static str = "a whole number from 0 to 18446744073709551615";
}

impl Number for i32 {
    const WANTED: &'static str = "a whole number from -2147483648 to 2147483647";
}

impl Number for i64 {
    const WANTED: &'static str = "a whole number from -9223372036854775808 to 9223372036854775807";
}
