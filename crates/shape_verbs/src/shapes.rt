// The requests on shapes (document 01, "Shapes, digit words, exponents").
use replies::{Answered, Reply};

pub(crate) fn of_shape(verb: &[u8], kinds: &[u8], values: &[u64], lent: &mut [u64]) -> Answered {
    if requests::asks(verb, kinds, b"shapecount *") {
        return Ok(Some(Reply::Number(cartesian::shape_count(requests::list(values, 0))?)));
    }
    if requests::asks(verb, kinds, b"strides *") {
        return Ok(Some(Reply::Places(cartesian_strides::strides(
            requests::list(values, 0),
            lent,
        )?)));
    }
    if requests::asks(verb, kinds, b"linearize */*") {
        let slash = requests::slash(kinds);
        let radices = requests::list_before(values, slash);
        let digits = requests::list_after(values, slash);
        return Ok(Some(Reply::Number(cartesian::linearize(radices, digits)?)));
    }
    let x = requests::number(values, 0);
    let radices = requests::list(values, 2);
    if requests::asks(verb, kinds, b"delinearize n/*") {
        return Ok(Some(Reply::Places(cartesian::delinearize(radices, x, lent)?)));
    }
    if requests::asks(verb, kinds, b"corner n/*") {
        return Ok(Some(Reply::Number(cartesian_strides::corner(radices, x)?)));
    }
    Ok(None)
}
