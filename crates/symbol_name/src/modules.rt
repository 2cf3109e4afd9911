//! Functions in modules of Fortran.

ghost use Rattle.std.specs.Prelude.{◌≡◌, ◌++◌, option_map, IfOk, codes};
ghost use Rattle.std.specs.List.{list_all};
ghost use Rattle.symbol_name.specs.Modules.{is_lower_byte, is_lower, gfortran_parts, ifort_parts, flang_parts, module_parts};

use crate::text::{before, behind, cut_at, is_word};
use std::alloc::{AllocError, Global};

fn is_lower_byte(b: u8) -> bool
    ensures { result ≡ is_lower_byte b }
{
    b.is_ascii_lowercase() || b.is_ascii_digit() || b == b'_'
}

fn are_lower_bytes(text: &[u8]) -> bool
    ensures { result ≡ list_all is_lower_byte text.now }
{
    text.iter().all(|b| is_lower_byte(*b))
}

// Whether a text is one or more lower-case letters, digits and `_`.
fn is_lower(text: &[u8]) -> bool
    ensures { result ≡ is_lower text.now }
{
    !text.is_empty() && are_lower_bytes(text)
}

// The module and the function of gfortran's `__m_MOD_f`.
fn gfortran_parts(name: &[u8]) -> Option<(&[u8], &[u8])>
    ensures { option_map (λ r. (r.0.now, r.1.now)) result ≡ gfortran_parts name.now }
{
    let (scope, function) = cut_at(behind(name, b"__")?, b"_MOD_")?;
    if is_word(scope) && is_word(function) {
        Some((scope, function))
    } else {
        None
    }
}

// The module and the function of ifort's `m_mp_f_`.
fn ifort_parts(name: &[u8]) -> Option<(&[u8], &[u8])>
    ensures { option_map (λ r. (r.0.now, r.1.now)) result ≡ ifort_parts name.now }
{
    let (scope, function) = cut_at(before(name, b"_")?, b"_mp_")?;
    if is_word(scope) && is_word(function) {
        Some((scope, function))
    } else {
        None
    }
}

// The module and the function of flang's `_QMmPf`.
fn flang_parts(name: &[u8]) -> Option<(&[u8], &[u8])>
    ensures { option_map (λ r. (r.0.now, r.1.now)) result ≡ flang_parts name.now }
{
    let (scope, function) = cut_at(behind(name, b"_QM")?, b"P")?;
    if is_lower(scope) && is_lower(function) {
        Some((scope, function))
    } else {
        None
    }
}

/// The module and the function that a name says, as gfortran, ifort or flang writes them.
pub fn module_parts(name: &[u8]) -> Option<(&[u8], &[u8])>
    ensures { option_map (λ r. (r.0.now, r.1.now)) result ≡ module_parts name.now }
{
    if let Some(parts) = gfortran_parts(name) {
        return Some(parts);
    }
    if let Some(parts) = ifort_parts(name) {
        return Some(parts);
    }
    flang_parts(name)
}

/// `m::f`.
pub fn joined(alloc: Global, scope: &[u8], function: &[u8]) -> Result<Vec<u8>, AllocError>
    ensures { IfOk result (λ s. s.items ≡ scope.now ++ codes "::" ++ function.now) }
{
    let mut name = Vec::from_slice(alloc, scope)?;
    name.extend_from_slice(b"::")?;
    name.extend_from_slice(function)?;
    Ok(name)
}
