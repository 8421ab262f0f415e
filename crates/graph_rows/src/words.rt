use std::alloc::Global;
use std::env;

/// The numbers that the words after the program's name spell; None where one spells none or they cannot be had.
pub fn numbers_of(rt: &HostRuntime, alloc: Global) -> Option<Vec<u32>> {
    let mut numbers = Vec::new(alloc);
    let Ok(words) = env::args(rt) else {
        return None;
    };
    for word in words.skip(1) {
        let Ok(number) = word.as_str().parse::<u32>() else {
            return None;
        };
        if numbers.push(number).is_err() {
            return None;
        }
    }
    Some(numbers)
}
