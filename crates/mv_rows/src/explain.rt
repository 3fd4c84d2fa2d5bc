//! What codes say, in the words of a person who reads them. How lists of codes are told is seen on the program.

use mv_explain::sentence;

/// The caller that the head of mv_explain shows.
fn is_told(code: &str, wanted: &str) -> bool {
    match sentence(code) {
        Some(told) => told == wanted,
        None => false,
    }
}

#[test]
fn a_code_is_told_in_a_sentence(rt: HostRuntime) {
    assert!(rt;
        is_told(
            "P8",
            "The market is not two capital letters: write FI, not fi."
        )
    );
    assert!(rt;
        is_told(
            "S7",
            "The wire is full: apply or lose its front frame first."
        )
    );
    for code in ["S15", "M9", "", "s7"] {
        assert!(rt; sentence(code).is_none());
    }
}
