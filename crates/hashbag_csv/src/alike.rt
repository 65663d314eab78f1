//! Articles that differ only in case, in white space at their ends, or in normal form.
ghost use Rattle.std.specs.Prelude.{◌≡◌, ◌+◌, ◌≤◌, length, map, IfOk, OnOk};
ghost use Rattle.std.specs.String.{string_bytes};
ghost use Rattle.hashbag_csv.specs.Alike.{AreNear, KeepsNear, loose, loosely};

use crate::article::Article;
use caseless::default_case_fold_str;
use std::alloc::{AllocError, Global};
use std::collections::HashMap;
use std::hash::BuildHasher;
use unicode_normalization::to_nfc;

// Returns a field without the white space at both ends, with its case folded, in normal form C.
fn loose_field(alloc: Global, field: &str) -> Result<String, AllocError>
    ensures { IfOk result (λ text. string_bytes text ≡ loose field.now) }
{
    let folded = default_case_fold_str(alloc, field.trim())?;
    to_nfc(alloc, folded.as_str())
}

// Returns each field in the form of `loose_field`.
fn loose_fields(alloc: Global, fields: &[String]) -> Result<Vec<String>, AllocError>
    ensures { IfOk result (λ loose. map string_bytes loose.items ≡ loosely (map string_bytes fields.now)) }
{
    let mut loose = Vec::new(alloc);
    for field in fields {
        loose.push(loose_field(alloc, field.as_str())?)?;
    }
    Ok(loose)
}

// If `seen` has an article with these loose fields, appends the pair of that article and `article`. Else inserts `article` into `seen`.
fn pair_or_insert<'a, A: Article, S: BuildHasher + Drop>(
    seen: &mut HashMap<Vec<String>, &'a A, S>,
    pairs: &mut Vec<(&'a A, &'a A)>,
    loose: Vec<String>,
    article: &'a A,
) -> Result<(), AllocError>
    ensures near { OnOk result (KeepsNear A.fields article.now loose seen.old pairs.old seen.new pairs.new) }
    ensures few { OnOk result (length pairs.new.items ≤ length pairs.old.items + 1) }
{
    let first: Option<&'a A> = seen.get(&loose).copied();
    match first {
        Some(first) => {
            pairs.push((first, article))?;
            Ok(())
        }
        None => {
            seen.insert(loose, article)?;
            Ok(())
        }
    }
}

/// Returns pairs of articles that differ only in case, in white space at the ends of fields, or in normal form: the first such article of the list,
/// and a later one. Returns at most `most` pairs. Each article should be in the list once.
///
/// # Errors
///
/// An allocation fails.
///
/// # Complexity
///
/// Allocates and hashes the fields of each article, up to the last pair.
pub fn alike<'a, A: Article, S: BuildHasher + Drop>(
    alloc: Global,
    state: S,
    articles: &[&'a A],
    most: usize,
) -> Result<Vec<(&'a A, &'a A)>, AllocError>
    // Both articles of a pair have the same fields in normal form C, with case folded and no white space at their ends. Which articles are paired
    // isn't stated.
    ensures near { IfOk result (λ pairs. AreNear A.fields pairs.items) }
    ensures few { IfOk result (λ pairs. length pairs.items ≤ most) }
{
    let mut seen = HashMap::with_hasher(alloc, state);
    let mut pairs = Vec::new(alloc);
    'articles: for article in articles {
        if pairs.len() >= most {
            break;
        }
        let loose = loose_fields(alloc, article.texts())?;
        pair_or_insert(&mut seen, &mut pairs, loose, *article)?;
    }
    Ok(pairs)
}
