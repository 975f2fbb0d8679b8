//! Tests of markup and rendering.
//!
//! A proof covers what the grammar says; these tests hold worked pages byte for byte, pages that are large or made to
//! be slow, and whether each call can succeed. Where a new test goes:
//!
//! - `pages`: a small text and its page, in one markup or in both;
//! - `included`: the bound on the template bytes that a page includes;
//! - `large`: pages of 65,536 bytes;
//! - `trees`: the blocks of a text;
//! - `marks`: the marks in a line, and the templates that a text names;
//! - `setting`: what they share: titles, texts, and the rendering of a page.
//!
//! The error of each test is `std::test::Fail`, so that `?` takes every refusal.
#![tactic(auto)]

#[cfg(test)]
mod included;
#[cfg(test)]
mod large;
#[cfg(test)]
mod marks;
#[cfg(test)]
mod pages;
#[cfg(test)]
mod setting;
#[cfg(test)]
mod trees;
