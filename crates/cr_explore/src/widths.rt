//! How many numbers each lead has, known when what asks for it is compiled.

// The call for a width, which is one of those of a table of numbers, and what to do for any other number.
macro_rules! by_width {
    ($width:expr, $call:ident($($argument:expr),*), $other:expr) => {
        match $width {
            2 => $call::<2>($($argument),*),
            3 => $call::<3>($($argument),*),
            4 => $call::<4>($($argument),*),
            6 => $call::<6>($($argument),*),
            8 => $call::<8>($($argument),*),
            12 => $call::<12>($($argument),*),
            16 => $call::<16>($($argument),*),
            24 => $call::<24>($($argument),*),
            32 => $call::<32>($($argument),*),
            64 => $call::<64>($($argument),*),
            128 => $call::<128>($($argument),*),
            _ => $other,
        }
    };
}

// The call for a query that counts something, or nothing, and for so many steps, or any number of them. Most problems have
// a plain lead with bobs, or with bobs and singles.
macro_rules! by_steps {
    ($is_counted:expr, $steps:expr, $call:ident::<$width:ident>($($argument:expr),*)) => {
        if $is_counted {
            $call::<$width, 1, 0>($($argument),*)
        } else {
            match $steps {
                2 => $call::<$width, 0, 2>($($argument),*),
                3 => $call::<$width, 0, 3>($($argument),*),
                _ => $call::<$width, 0, 0>($($argument),*),
            }
        }
    };
}

pub(crate) use by_steps;
pub(crate) use by_width;
