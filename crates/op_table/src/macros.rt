//! The macro that writes the rows of a table.

/// The rows of a table, as an array: a code, a name and a form each, as `rows! { 1 "HALT" 0; 2 "LDI" 1; }`.
#[macro_export]
macro_rules! rows {
    ($($code:literal $name:literal $form:literal;)*) => {
        [$($crate::Row { code: $code, name: $name, form: $form }),*]
    };
}
