//! What came is compared with what is due. Where they differ, the result is an error, which fails the test that hands
//! it on: a `Fail` can't be dropped, so that no test lets one go by mistake.
use std::fmt::Debug;
use std::test::Fail;

/// The same value.
pub fn assert_equal<T: PartialEq + Debug>(came: &T, due: &T) -> Result<(), Fail> {
    if came == due {
        Ok(())
    } else {
        Err(Fail::new(format_args!("{came:?} came, and {due:?} is due")))
    }
}

fn bytes_from(bytes: &[u8], start: usize) -> &[u8] {
    bytes.get(start..).unwrap_or_default()
}

// Both texts, from their first difference on.
fn differ(came: &[u8], due: &[u8]) -> Result<(), Fail> {
    let start = came.iter().zip(due).take_while(|(a, b)| a == b).count();
    let came = str::from_utf8(bytes_from(came, start))?;
    let due = str::from_utf8(bytes_from(due, start))?;
    Err(Fail::new(format_args!("from byte {start} on {came:.150?} came, and {due:.150?} is due")))
}

/// The same text.
pub fn assert_text(came: &[u8], due: &[u8]) -> Result<(), Fail> {
    if came == due {
        Ok(())
    } else {
        differ(came, due)
    }
}
