//! Texts of checkpoints one after another: of each what stands before it, and its lines after the problem.

// Checkpoints of Plain Bob Minimus.
macro_rules! minimus {
    ($($head:literal, $lines:literal;)*) => {
        concat!(
            $(
                $head,
                "ringsearch checkpoint 2
problem 82
stage = 4
[[method]]
letter = \"A\"
notation = \"x14x14,12\"
[query]
min = 1
max = 24

",
                $lines,
            )*
        )
    };
}

pub(crate) use minimus;

// Checkpoints of Plain Bob Doubles.
macro_rules! doubles {
    ($($head:literal, $lines:literal;)*) => {
        concat!(
            $(
                $head,
                "ringsearch checkpoint 2
problem 124
stage = 5
[[method]]
letter = \"A\"
notation = \"5.1.5.1.5,125\"
[[call]]
mark = \"b\"
notation = \"145\"
[query]
min = 1
max = 120

",
                $lines,
            )*
        )
    };
}

pub(crate) use doubles;
