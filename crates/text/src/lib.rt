// The fields that a line of a text file is made of: numbers, names and lists of numbers, and the marks between them.
#![tactic(auto)]

pub mod fault;
mod fields;
mod list;
mod parts;

pub use fault::FieldFault;
pub use fields::{name, number};
pub use list::{Entries, numbers};
pub use parts::cut;

#[cfg(test)]
mod tests {
    use super::*;

    #[test]
    fn numbers_are_read(rt: HostRuntime) {
        for (text, n) in [("0", 0), ("10", 10), ("9999999", 9999999)] {
            assert_eq!(rt; number(text.as_bytes()), Ok(n), "{}", text);
        }
        for text in ["", "07", "+7", "10000000"] {
            assert_eq!(rt;
                number(text.as_bytes()),
                Err(FieldFault::Number),
                "{}",
                text
            );
        }
    }

    #[test]
    fn lists_are_read(rt: HostRuntime) {
        for (text, rising, passes) in [
            ("-", true, true),
            ("1,2,30", true, true),
            ("2,1", false, true),
            ("2,1", true, false),
            ("1,", false, false),
            ("1,-", false, false),
        ] {
            assert_eq!(rt;
                numbers(text.as_bytes(), rising).is_ok(),
                passes,
                "{}",
                text
            );
        }
    }
}
