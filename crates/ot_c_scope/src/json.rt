//! Forms of the language, as JSON.
ghost use Rattle.std.specs.Prelude.{◌≡◌, [], ◌∷◌, IfOk};
ghost use Rattle.serde_json.specs.Data.{array, string};
ghost use Rattle.serde_json.specs.View.{view, items_view};
ghost use Rattle.ot_c_scope.specs.Forms.{form};

use serde_json::Value;
use std::alloc::{AllocError, Global};

/// A text of JSON. It is refused only where memory is.
pub fn text(alloc: Global, text: &str) -> Result<Value, AllocError>
    ensures { IfOk result (λ v. view v ≡ string text.now) }
{
    Ok(Value::String(String::from_str(alloc, text)?))
}

/// A list of JSON, of these values in their order.
pub fn list(values: Vec<Value>) -> Value
    ensures { view result ≡ array (items_view values.items) }
{
    Value::Array(values)
}

/// `[one, two, three]`
pub fn three(alloc: Global, one: Value, two: Value, three: Value) -> Result<Value, AllocError>
    ensures { IfOk result (λ v. view v ≡ array (items_view (one ∷ two ∷ three ∷ []))) }
{
    let mut values = Vec::new(alloc);
    values.push(one)?;
    values.push(two)?;
    values.push(three)?;
    Ok(list(values))
}

/// `["word"]`
pub fn form0(alloc: Global, word: &str) -> Result<Value, AllocError>
    ensures { IfOk result (λ v. view v ≡ form word.now []) }
{
    let mut values = Vec::new(alloc);
    values.push(text(alloc, word)?)?;
    Ok(list(values))
}

/// `["word", one]`
pub fn form1(alloc: Global, word: &str, one: Value) -> Result<Value, AllocError>
    ensures { IfOk result (λ v. view v ≡ form word.now (view one ∷ [])) }
{
    let mut values = Vec::new(alloc);
    values.push(text(alloc, word)?)?;
    values.push(one)?;
    Ok(list(values))
}

/// `["word", one, two]`
pub fn form2(alloc: Global, word: &str, one: Value, two: Value) -> Result<Value, AllocError>
    ensures { IfOk result (λ v. view v ≡ form word.now (view one ∷ view two ∷ [])) }
{
    let mut values = Vec::new(alloc);
    values.push(text(alloc, word)?)?;
    values.push(one)?;
    values.push(two)?;
    Ok(list(values))
}

/// `["word", one, two, three]`
pub fn form3(
    alloc: Global,
    word: &str,
    one: Value,
    two: Value,
    three: Value,
) -> Result<Value, AllocError>
    ensures { IfOk result (λ v. view v ≡ form word.now (view one ∷ view two ∷ view three ∷ [])) }
{
    let mut values = Vec::new(alloc);
    values.push(text(alloc, word)?)?;
    values.push(one)?;
    values.push(two)?;
    values.push(three)?;
    Ok(list(values))
}

/// `["word", one, two, three, four]`
pub fn form4(
    alloc: Global,
    word: &str,
    one: Value,
    two: Value,
    three: Value,
    four: Value,
) -> Result<Value, AllocError>
    ensures { IfOk result (λ v. view v ≡ form word.now (view one ∷ view two ∷ view three ∷ view four ∷ [])) }
{
    let mut values = Vec::new(alloc);
    values.push(text(alloc, word)?)?;
    values.push(one)?;
    values.push(two)?;
    values.push(three)?;
    values.push(four)?;
    Ok(list(values))
}
