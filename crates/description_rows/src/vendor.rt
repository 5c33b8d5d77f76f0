/// A description as a vendor writes it: 71 elements of the text, 13 of the device.
pub const VENDOR: &[u8] = br#"<?xml version="1.0" encoding="utf-8" standalone="no"?>
<!-- Licensed under the Apache License, Version 2.0 -->
<device schemaVersion="1.3" xmlns:xs="http://www.w3.org/2001/XMLSchema-instance" xs:noNamespaceSchemaLocation="CMSIS-SVD.xsd">
  <vendor>Example</vendor><name>EX32F1</name><version>1.2</version>
  <description>Timers &amp; more</description>
  <cpu><name>CM4</name><revision>r0p1</revision><endian>little</endian></cpu>
  <addressUnitBits>8</addressUnitBits><width>32</width>
  <size>0x20</size><resetValue>0x0</resetValue><resetMask>0xFFFFFFFF</resetMask>
  <peripherals>
    <peripheral><name>TIM2</name><groupName>TIM</groupName><baseAddress>0x40000000</baseAddress>
      <addressBlock><offset>0x0</offset><size>0x400</size><usage>registers</usage></addressBlock>
      <interrupt><name>TIM2</name><value>28</value></interrupt>
      <registers>
        <register><name>TIM_CR1</name><displayName>CR1</displayName><addressOffset>0x0</addressOffset>
          <size>16</size><access>read-write</access><fields>
            <field><name>CEN</name><bitOffset>0</bitOffset><bitWidth>1</bitWidth><enumeratedValues>
              <enumeratedValue><name>Disabled</name><value>0</value></enumeratedValue>
              <enumeratedValue><name>Enabled</name><value>1</value></enumeratedValue>
            </enumeratedValues></field>
            <field><name>CKD</name><bitRange>[9:8]</bitRange></field></fields></register>
        <register><name>TIM_SR</name><addressOffset>0x10</addressOffset>
          <fields><field><name>UIF</name><lsb>0</lsb><msb>0</msb></field></fields></register>
        <register><name>TIM_CNT</name><addressOffset>0x24</addressOffset></register>
        <register><name>TIM_CCR1</name><addressOffset>0x34</addressOffset></register>
        <register><name>TIM_CCR2</name><addressOffset>0x38</addressOffset></register>
        <register><name>TIM_OLD</name><addressOffset>0x50</addressOffset></register>
      </registers></peripheral>
    <peripheral derivedFrom="TIM2"><name>TIM3</name><baseAddress>0x40000400</baseAddress></peripheral>
  </peripherals>
</device>
"#;
