// Every public call for programs in C or Rust, under the prefix gudrenoss_ (docs/RULES.md, "The C boundary"; include/gudrenoss.h says the same to a C
// programmer). One rule for all: the refusal comes back, its number 0 for an answer; results go to the caller's places, which are written only on an answer.
// A family crosses as whether it is Allowed, an index as its family, its alphabet and its bits, a sign as whether it is minus, a slice as a pointer and a length.
//   terms           counting, packing, ranking, unranking, the next term, walks
//   signed          canonicalise, merge, delete, complement, stabilizer
//   sets            insert, contains, position, select
//   permutations    image, inverse, composition, sign, rank, unrank, successor
//   shapes          count, strides, linearize, delinearize, corner
//   digit_words     count, from symbols, symbols, symbol, multiplicity, stabilizer, concatenation, deletion
//   exponents       to a word, from a word, rank, from a rank, addition
//   images          check, row, lookup, lookup by a row, writing; the check of an image in pieces
//   masses          the sample of two readings, and the mass of one frame
//   derivation      the derivative of a surface
//   old_order       rank, unrank and successor in lexicographic order, and the converter of old tables
//   wide_terms      count, rank, unrank, the next term, merge and delete of wide indices
//   batches         the ranks of many indices
//   version         the version of the library
#![tactic(auto)]

mod batches;
mod derivation;
mod digit_words;
mod exponents;
mod images;
mod masses;
mod old_order;
mod permutations;
mod sets;
mod shapes;
mod signed;
mod terms;
mod version;
mod wide_terms;
