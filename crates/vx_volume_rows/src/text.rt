//! Configurations of two disks of 2,048 public sectors, and a volume of two regions.

/// One plex on the first disk, from its first public sector on, and no log.
pub const ALONE: &[u8] =
    b"dg dg\n\tversion=1\ndm disk01\n\tdevice=g0\n\tslot=0\n\tpublen=2048\ndm disk02\n\tdevice=g1\n\tslot=1\n\tpublen=2048\nsd disk01-01\n\tdisk=disk01\n\toff=0\n\tlen=256\n\tplex=v-01\n\tcol=0\n\tat=0\nplex v-01\n\tvol=v\n\tkind=data\n\tlayout=concat\n\tncol=1\n\tunit=128\n\tstate=EMPTY\n\tmap=-\nvol v\n\tlen=256\n\tregion=128\n\trdpol=round\n\tprefer=-\n\tstate=EMPTY\n\tdco=-\n";

/// A plex and a log on each disk: the plex before the log on the first, and behind it on the second.
pub const TWICE: &[u8] =
    b"dg dg\n\tversion=1\ndm disk01\n\tdevice=g0\n\tslot=0\n\tpublen=2048\ndm disk02\n\tdevice=g1\n\tslot=1\n\tpublen=2048\nsd disk01-01\n\tdisk=disk01\n\toff=0\n\tlen=256\n\tplex=v-01\n\tcol=0\n\tat=0\nsd disk01-02\n\tdisk=disk01\n\toff=256\n\tlen=560\n\tplex=v_dcl-01\n\tcol=0\n\tat=0\nsd disk02-01\n\tdisk=disk02\n\toff=560\n\tlen=256\n\tplex=v-02\n\tcol=0\n\tat=0\nsd disk02-02\n\tdisk=disk02\n\toff=0\n\tlen=560\n\tplex=v_dcl-02\n\tcol=0\n\tat=0\nplex v-01\n\tvol=v\n\tkind=data\n\tlayout=concat\n\tncol=1\n\tunit=128\n\tstate=EMPTY\n\tmap=0\nplex v-02\n\tvol=v\n\tkind=data\n\tlayout=concat\n\tncol=1\n\tunit=128\n\tstate=EMPTY\n\tmap=1\nplex v_dcl-01\n\tvol=v\n\tkind=log\n\tlayout=concat\n\tncol=1\n\tunit=128\n\tstate=EMPTY\n\tmap=-\nplex v_dcl-02\n\tvol=v\n\tkind=log\n\tlayout=concat\n\tncol=1\n\tunit=128\n\tstate=EMPTY\n\tmap=-\nvol v\n\tlen=256\n\tregion=128\n\trdpol=round\n\tprefer=-\n\tstate=EMPTY\n\tdco=v_dco\ndco v_dco\n\tvol=v\n\tmaps=32\n";
