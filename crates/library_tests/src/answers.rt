// What a call answered, against what is wanted of it.
use chain_core::Chain;
use fp_field::Fp;
use std::alloc::Global;
use std::fmt::Display;

pub const ONE: Fp = Fp { value: 1 };

pub const TWO: Fp = Fp { value: 2 };

/// Whether a value came, and equals this one.
pub fn is<T: PartialEq + Drop, E: Drop>(answer: Result<T, E>, wanted: &T) -> bool {
    match answer {
        Ok(value) => value == *wanted,
        Err(_) => false,
    }
}

/// Whether a chain came, and has these terms.
pub fn has<K: Ord + Drop, E: Drop>(answer: Result<Chain<K>, E>, wanted: &[(K, Fp)]) -> bool {
    match answer {
        Ok(chain) => chain.terms() == wanted,
        Err(_) => false,
    }
}

/// Whether this fault came.
pub fn fails<T: Drop, E: PartialEq + Drop>(answer: Result<T, E>, wanted: E) -> bool {
    match answer {
        Ok(_) => false,
        Err(fault) => fault == wanted,
    }
}

/// Whether a fault is shown by this text.
pub fn is_shown<F: Display + Drop>(alloc: Global, fault: F, text: &str) -> bool {
    match format!(in alloc; "{fault}") {
        Ok(shown) => shown.as_str() == text,
        Err(_) => false,
    }
}

/// Compiles where the value may cross threads and be shared among them.
pub fn crosses<T: Send + Sync + Drop>(_value: &T) {}
