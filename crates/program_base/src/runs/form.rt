//! How the answers of a command are written.
ghost use Rattle.std.specs.Prelude.{◌≡◌};
ghost use Rattle.program_base.specs.Form.{form_of, none_in};

/// How the answers of a command are written.
#[derive(Clone, Copy)]
pub enum Form {
    /// As text, each on a line.
    Text,
    /// As JSON, each value on a line.
    Json,
}

/// The form that an option selects, if it is one that does.
///
/// ```
/// form_of("--json")   // Some(Form::Json)
/// form_of("-j")   // None
/// ```
pub fn form_of(option: &str) -> Option<Form>
    ensures { result ≡ form_of option.now }
{
    if option == "--json" {
        Some(Form::Json)
    } else {
        None
    }
}

/// What is written where there is no number.
///
/// ```
/// none_in(Form::Json)   // "null"
/// ```
pub fn none_in(form: Form) -> &'static str
    ensures { result.now ≡ none_in form }
{
    match form {
        Form::Text => "none",
        Form::Json => "null",
    }
}
