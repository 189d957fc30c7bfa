//! What networks are printed as: outside vectors, since contracts speak of the definition alone.
use sf_print::write_network;
use sf_text::read_network;
use std::alloc::Global;
use std::test::Fail;

/// What a network is printed as.
fn printed(alloc: Global, network: &[u8]) -> Result<Vec<u8>, Fail> {
    let program = read_network(alloc, network)?;
    let text = write_network(alloc, &program)?;
    Ok(text)
}

#[test]
fn a_network_is_printed_in_lines(rt: HostRuntime) -> Result<(), Fail> {
    let written = b"network 1; template main ( ) : Int~>Int=(iPre 007>>>arr x=>(x+1)) ; # end";
    let wanted = b"network 1;\ntemplate main(): Int ~> Int = (iPre 7 >>> arr x => (x + 1));\n";
    let text = printed(rt.alloc(), written)?;
    assert!(rt; text.as_slice() == wanted.as_slice());
    Ok(())
}

#[test]
fn keys_that_are_numbers_make_no_second_text(rt: HostRuntime) -> Result<(), Fail> {
    let written = b"network 2; template main(): Table Int Bool ~> Table Int Bool = identity;";
    let wanted = b"network 1;\ntemplate main(): Table Bool ~> Table Bool = identity;\n";
    let text = printed(rt.alloc(), written)?;
    assert!(rt; text.as_slice() == wanted.as_slice());
    Ok(())
}

#[test]
fn keys_that_are_texts_do(rt: HostRuntime) -> Result<(), Fail> {
    let written = b"network 2; template main(): Table Text Int~>Table Text Int = identity;";
    let wanted = b"network 2;\ntemplate main(): Table Text Int ~> Table Text Int = identity;\n";
    let text = printed(rt.alloc(), written)?;
    assert!(rt; text.as_slice() == wanted.as_slice());
    Ok(())
}

#[test]
fn forms_that_remember_are_printed(rt: HostRuntime) -> Result<(), Fail> {
    let written =
        b"network 1;template main():(Event Int,Bool)~>(Int,(Event Unit,Event Text))=((once>>>(dHold -3>>>initially 07))***(iEdge false&&&edgeTag \"up\"));";
    let wanted =
        b"network 1;\ntemplate main(): (Event Int, Bool) ~> (Int, (Event Unit, Event Text)) = ((once >>> (dHold -3 >>> initially 7)) *** (iEdge false &&& edgeTag \"up\"));\n";
    let text = printed(rt.alloc(), written)?;
    assert!(rt; text.as_slice() == wanted.as_slice());
    Ok(())
}

#[test]
fn numbers_of_events_are_printed(rt: HostRuntime) -> Result<(), Fail> {
    let written =
        b"network 1;template main():Event Int~>Event Int=(takeEvents 007>>>dropEvents -0);";
    let wanted =
        b"network 1;\ntemplate main(): Event Int ~> Event Int = (takeEvents 7 >>> dropEvents 0);\n";
    let text = printed(rt.alloc(), written)?;
    assert!(rt; text.as_slice() == wanted.as_slice());
    Ok(())
}
